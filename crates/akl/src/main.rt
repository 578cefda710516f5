//! The program: its words, its files, standard input and standard output, and its status.
#![tactic(auto)]

mod help;
mod real;
mod standard;
#[cfg(test)]
mod tests;

use crate::help::{tell_failure, tell_usage};
use crate::real::RealHost;
use crate::standard::Held;
use ak_top::akl;
use ak_words::{Command, WordsError, read_words};
use std::alloc::{AllocError, Global};
use std::io::{Stdin, Stdout};
use std::process::ExitCode;
use std::rt::Env;
use std::{env, io};

// The words behind the program's name. One that is no text makes them a word that is no command.
fn words_of<R: Env + AllocGlobal>(rt: &R, alloc: Global) -> Result<Vec<String>, AllocError> {
    let mut words = Vec::new(alloc);
    match env::args(rt) {
        Ok(args) => {
            for word in args.skip(1) {
                words.push(word)?;
            }
        }
        Err(error) => {
            if error.kind() == io::ErrorKind::OutOfMemory {
                return Err(AllocError);
            }
            words.push(String::new(alloc))?;
        }
    }
    Ok(words)
}

// The host that the words ask for: over the directory of a command, and over files in memory where there is none.
fn host_of(rt: HostRuntime, words: &[String]) -> Result<RealHost<Stdin, Stdout>, AllocError> {
    let alloc = rt.alloc();
    let (input, output) = (rt.stdin(), rt.stdout());
    match read_words(alloc, words) {
        Ok(job) => match job.command {
            Command::Create(_) => RealHost::in_directory(rt, job.dir.as_str(), input, output),
            Command::Run => RealHost::in_directory(rt, job.dir.as_str(), input, output),
            Command::Scratch => Ok(RealHost::in_memory(alloc, input, output)),
        },
        Err(WordsError::Usage) => Ok(RealHost::in_memory(alloc, input, output)),
        Err(WordsError::Memory) => Err(AllocError),
    }
}

// Tells on standard error what a status other than 0 has no room for. Where that fails nobody hears it.
fn tell(
    rt: &HostRuntime,
    words: &[String],
    held: &Held,
    host: &RealHost<Stdin, Stdout>,
    status: u8,
) {
    let failure = match status {
        1 => {
            let _ = tell_usage(rt, words);
            return;
        }
        3 => host.disk_failure(),
        4 => host.port_failure(),
        _ => None,
    };
    if let Some(failure) = failure {
        let _ = tell_failure(rt, held, host, failure);
    }
}

fn main(rt: HostRuntime) -> ExitCode {
    let alloc = rt.alloc();
    // Before any file is opened.
    let held = match Held::take(&rt) {
        Ok(held) => held,
        Err(error) => {
            let _ = eprintln!(rt; "akl: the places of the standard streams can't be held: {error}");
            return ExitCode::from(4);
        }
    };
    let Ok(words) = words_of(&rt, alloc) else {
        return ExitCode::from(5);
    };
    let Ok(mut host) = host_of(rt, words.as_slice()) else {
        return ExitCode::from(5);
    };
    let status = akl(alloc, words.as_slice(), &mut host);
    tell(&rt, words.as_slice(), &held, &host, status);
    ExitCode::from(status)
}
