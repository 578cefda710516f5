//! Reads the words of the command line.
ghost use Rattle.std.specs.Prelude.{◌≡◌, [], map, string_bytes, IfOk, IfErr};
ghost use Rattle.ak_words.specs.Words.{IsJob, HasLimits, IsRefused};

use crate::job::{Command, Job, WordsError};
use crate::options::read_limits;
use ak_base::{Text, Texts};
use std::alloc::Global;

// The job of a command on a directory.
fn job_on(alloc: Global, command: Command, dir: &str) -> Result<Job, WordsError>
    ensures command { IfOk result (λ job. job.command ≡ command) }
    ensures dir { IfOk result (λ job. job.dir ≡ dir.now) }
    ensures files { IfOk result (λ job. job.files ≡ []) }
    ensures err { IfErr result (λ error. error ≡ WordsError.Memory) }
{
    let mut text = Text::new(alloc);
    text.push(alloc, dir)?;
    Ok(Job {
        command,
        dir: text,
        files: Texts::new(alloc),
    })
}

/// Reads the words of the command line: none, or `run DIR`, or `create DIR` and pairs of a limit's name and a number, as
/// `--volumes 4`. A number is 1 to 10 digits. `Usage` comes exactly where the words are no command.
pub fn read_words(alloc: Global, words: &[String]) -> Result<Job, WordsError>
    ensures job { IfOk result (λ job. IsJob (map string_bytes words.now) job) }
    ensures limits { IfOk result (λ job. HasLimits job.command) }
    ensures usage { IsRefused (map string_bytes words.now) result }
{
    if words.is_empty() {
        return Ok(Job {
            command: Command::Scratch,
            dir: Text::new(alloc),
            files: Texts::new(alloc),
        });
    }
    if words.len() < 2 {
        return Err(WordsError::Usage);
    }
    let name = words[0].as_str();
    let dir = words[1].as_str();
    let options = &words[2..];
    if name == "create" {
        match read_limits(options) {
            Some(limits) => job_on(alloc, Command::Create(limits), dir),
            None => Err(WordsError::Usage),
        }
    } else if name == "run" && options.is_empty() {
        job_on(alloc, Command::Run, dir)
    } else {
        Err(WordsError::Usage)
    }
}
