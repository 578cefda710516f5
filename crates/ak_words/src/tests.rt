use super::*;
use ak_base::Limits;
use std::alloc::{AllocError, Global};

// What the words, which are split at blanks, ask for. An empty line is no words.
fn read(alloc: Global, line: &str) -> Result<Result<Job, WordsError>, AllocError> {
    let mut words = Vec::new(alloc);
    if !line.is_empty() {
        for word in line.split(' ') {
            words.push(String::from_str(alloc, word)?)?;
        }
    }
    Ok(read_words(alloc, words.as_slice()))
}

// Whether the words ask for this command on this directory and no files.
fn asks(alloc: Global, line: &str, command: Command, dir: &str) -> Result<bool, AllocError> {
    match read(alloc, line)? {
        Ok(job) => Ok(
            job.command == command && job.dir.as_str() == dir && job.files.as_slice().is_empty(),
        ),
        Err(_) => Ok(false),
    }
}

fn is_usage(alloc: Global, line: &str) -> Result<bool, AllocError> {
    Ok(matches!(read(alloc, line)?, Err(WordsError::Usage)))
}

#[test]
fn commands(rt: HostRuntime) -> Result<(), AllocError> {
    let alloc = rt.alloc();
    let default = Command::Create(Limits::DEFAULT);
    assert!(rt; asks(alloc, "", Command::Scratch, "")?);
    assert!(rt; asks(alloc, "run d", Command::Run, "d")?);
    assert!(rt; asks(alloc, "create d", default, "d")?);
    assert!(rt; asks(alloc, "create ", default, "")?);
    assert!(rt; asks(alloc, "create --volumes", default, "--volumes")?);
    Ok(())
}

#[test]
fn limits(rt: HostRuntime) -> Result<(), AllocError> {
    let alloc = rt.alloc();
    let all = Command::Create(Limits {
        volumes: 2,
        blocks: 16,
        slot: 1,
        pool: 4,
        every: 1000,
        scale: 0,
    });
    let two = Command::Create(Limits {
        volumes: 2,
        ..Limits::DEFAULT
    });
    let line = "create d --volumes 2 --blocks 16 --slot 1 --pool 4 --every 1000 --scale 0";
    assert!(rt; asks(alloc, line, all, "d")?);
    let turned = "create d --scale 0 --every 1000 --pool 4 --slot 1 --blocks 16 --volumes 2";
    assert!(rt; asks(alloc, turned, all, "d")?);
    assert!(rt; asks(alloc, "create d --volumes 0000000002", two, "d")?);
    Ok(())
}

#[test]
fn no_commands(rt: HostRuntime) -> Result<(), AllocError> {
    let alloc = rt.alloc();
    for line in [
        "run",
        "run d e",
        "create",
        "frob",
        "frob d",
        "--help",
        "create d --help",
        "create d --volumes",
        "create d --volumes 2 --volumes 2",
        "create d --volumes 1",
        "create d --volumes 65",
        "create d --volumes 00000000002",
        "create d --volumes +2",
        "create d --volumes -2",
        "create d --volumes ",
        "create d --volumes 2x",
        "create d --volume 2",
        "create d 2 --volumes",
        "create d --blocks 15",
        "create d --blocks 1048577",
        "create d --slot 4097",
        "create d --pool 0",
        "create d --every 65537",
        "create d --scale 10",
    ] {
        assert!(rt; is_usage(alloc, line)?);
    }
    Ok(())
}
