//! What is told on standard error: why words are no command, and which call failed.
use crate::real::{Call, Failure, RealHost};
use crate::standard::Held;
use std::io;
use std::io::{Read, Write};

const USAGE: &str = "usage:
  akl               serve a new store in memory: one session from standard input, its answers on standard output
  akl create DIR [--volumes N] [--blocks N] [--slot N] [--pool N] [--every N] [--scale N]
                    make a store in the directory DIR, which is made where it isn't there
  akl run DIR       serve the store in the directory DIR, in the same way
options of create, each once, with the least and the greatest N, and the N where it isn't given:
  --volumes 2 to 64 (4)         files of leaves
  --blocks 16 to 1048576 (4096) blocks of 4096 bytes of each of them
  --slot 1 to 4096 (256)        blocks of the record, which has the names of the series
  --pool 1 to 4096 (256)        series with an open leaf at once
  --every 1 to 65536 (16)       leaves closed up to the next view
  --scale 0 to 9 (6)            digits behind the point";

// The least and the greatest number of an option.
fn range_of(name: &str) -> Option<(u64, u64)> {
    match name {
        "--volumes" => Some((2, 64)),
        "--blocks" => Some((16, 1_048_576)),
        "--slot" => Some((1, 4096)),
        "--pool" => Some((1, 4096)),
        "--every" => Some((1, 65_536)),
        "--scale" => Some((0, 9)),
        _ => None,
    }
}

// Whether a word is a number of 1 to 10 digits in the range.
fn is_number(word: &str, least: u64, most: u64) -> bool {
    if word.len() > 10 || !word.bytes().all(|byte| byte.is_ascii_digit()) {
        return false;
    }
    match word.parse::<u64>() {
        Ok(number) => least <= number && number <= most,
        Err(_) => false,
    }
}

// Tells of the first option that is wrong.
fn tell_options(rt: &HostRuntime, options: &[String]) -> io::Result<()> {
    for (at, word) in options.iter().enumerate() {
        if at % 2 == 1 {
            continue;
        }
        let name = word.as_str();
        let Some((least, most)) = range_of(name) else {
            return eprintln!(rt; "akl: create: `{name}` is no option");
        };
        for (before, earlier) in options.iter().enumerate() {
            if before < at && before % 2 == 0 && earlier.as_str() == name {
                return eprintln!(rt; "akl: create: `{name}` stands twice");
            }
        }
        let Some(number) = options.get(at.saturating_add(1)) else {
            return eprintln!(rt; "akl: create: `{name}` needs a number behind it");
        };
        if !is_number(number.as_str(), least, most) {
            return eprintln!(rt;
                "akl: create: `{name}` takes a number from {least} to {most}, not `{number}`"
            );
        }
    }
    Ok(())
}

// Tells what is wrong with words that are no command.
fn tell_words(rt: &HostRuntime, words: &[String]) -> io::Result<()> {
    if words.is_empty() {
        return Ok(());
    }
    let name = words[0].as_str();
    if name != "create" && name != "run" {
        return eprintln!(rt; "akl: `{name}` is no command");
    }
    if words.len() == 1 {
        return eprintln!(rt; "akl: {name}: the directory is missing");
    }
    if name == "create" {
        return tell_options(rt, &words[2..]);
    }
    if words.len() > 2 {
        let word = words[2].as_str();
        return eprintln!(rt; "akl: run: `{word}` is one word too many");
    }
    Ok(())
}

/// Tells what is wrong with words that are no command, and which commands there are.
pub fn tell_usage(rt: &HostRuntime, words: &[String]) -> io::Result<()> {
    tell_words(rt, words)?;
    eprintln!(rt; "{USAGE}")
}

// What a file is called.
fn name_of<R: Read + Drop, W: Write + Drop>(
    rt: &HostRuntime,
    host: &RealHost<R, W>,
    file: u32,
) -> io::Result<String> {
    match host.path_of(file)? {
        Some(path) => Ok(path),
        None => Ok(format!(in rt.alloc(); "file {file} in memory")?),
    }
}

/// Tells which call failed, and why. Where the directory is what can't be used, it tells that.
pub fn tell_failure<R: Read + Drop, W: Write + Drop>(
    rt: &HostRuntime,
    held: &Held,
    host: &RealHost<R, W>,
    failure: Failure,
) -> io::Result<()> {
    let error = failure.error;
    if !matches!(failure.call, Call::Input | Call::Output) {
        if let Some((path, cause)) = host.directory_fault() {
            return eprintln!(rt; "akl: the directory `{path}` can't be used: {cause}");
        }
    }
    match failure.call {
        Call::Make(file) => {
            let name = name_of(rt, host, file)?;
            eprintln!(rt; "akl: {name} can't be made: {error}")
        }
        Call::Read(file, index) => {
            let name = name_of(rt, host, file)?;
            eprintln!(rt; "akl: {name}: block {index} can't be read: {error}")
        }
        Call::Write(file, index) => {
            let name = name_of(rt, host, file)?;
            eprintln!(rt; "akl: {name}: block {index} can't be written: {error}")
        }
        Call::Sync(file) => {
            let name = name_of(rt, host, file)?;
            eprintln!(rt; "akl: {name} can't be synced: {error}")
        }
        Call::Input => {
            if held.holds(0) {
                return eprintln!(rt; "akl: standard input isn't open");
            }
            eprintln!(rt; "akl: standard input can't be read: {error}")
        }
        Call::Output => {
            if held.holds(1) {
                return eprintln!(rt; "akl: standard output isn't open");
            }
            eprintln!(rt; "akl: standard output can't be written: {error}")
        }
    }
}
