// The line runner: runs the script on standard input, or the files that it is given one after the other, and writes the output to standard output.
// It only reads, feeds and writes. A read or write that fails ends it, with the error on standard error and status 1.
#![tactic(auto)]

mod reads;

use crate::reads::{Failure, run_input};
use std::env::{Env, FillError};
use std::io::Read;
use std::process::ExitCode;
use std::rt::Files;
use std::{fs, io, str};

// How long a path may be.
const PATH_BUFFER: usize = 4096;

// The words of an error: std puts the system's number behind them.
fn words_of(text: &str) -> &str {
    match text.split_once(" (os error ") {
        Some((words, _number)) => words,
        None => text,
    }
}

// Says on standard error what failed with which error. Where there is no memory for the error's words, its number is said too.
fn tell_error<R: Eprint + Alloc>(rt: &R, name: &str, error: io::Error) -> io::Result<()> {
    match format!(in rt.alloc(); "{error}") {
        Ok(text) => {
            let words = words_of(&text);
            eprintln!(rt; "{name}: {words}")
        }
        Err(_) => eprintln!(rt; "{name}: {error}"),
    }
}

// The same of an input by its name, or of the output.
fn tell<R: Eprint + Alloc>(rt: &R, name: &str, failure: Failure) -> io::Result<()> {
    match failure {
        Failure::Input(error) => tell_error(rt, name, error),
        Failure::Output(error) => tell_error(rt, "standard output", error),
    }
}

// An input of that name. Whether it was run to its end.
fn run_named<R: Print + Eprint + Alloc>(
    rt: &R,
    name: &str,
    input: &mut impl Read,
) -> io::Result<bool> {
    match run_input(input, &mut io::writer(rt)) {
        Ok(()) => Ok(true),
        Err(failure) => {
            tell(rt, name, failure)?;
            Ok(false)
        }
    }
}

// The script of that path. Whether it was run to its end.
fn run_file<R: Files + Print + Eprint + Alloc>(rt: &R, path: &str) -> io::Result<bool> {
    match fs::open(rt, path) {
        Ok(mut file) => run_named(rt, path, &mut file),
        Err(error) => {
            tell(rt, path, Failure::Input(error))?;
            Ok(false)
        }
    }
}

// Argument `i`, the path of a script: whether it was run to its end; none where there is no such argument. A path that is no UTF-8 is none of std's.
// (A buffer and how much of it is filled: so std's `arg` gives it.)
fn run_argument<R: Env + Files + Print + Eprint + Alloc>(
    rt: &R,
    i: usize,
) -> io::Result<Option<bool>> {
    let mut path = [0u8; PATH_BUFFER];
    match rt.arg(i, &mut path) {
        Ok(n) => match str::from_utf8(&path[..n]) {
            Ok(path) => Ok(Some(run_file(rt, path)?)),
            Err(_) => {
                eprintln!(rt; "argument: not UTF-8")?;
                Ok(Some(false))
            }
        },
        Err(FillError::TooLong) => {
            eprintln!(rt; "argument: File name too long")?;
            Ok(Some(false))
        }
        Err(FillError::NotPresent) => Ok(None),
    }
}

// The files that the arguments name, up to the first that fails; none where there is no argument.
fn run_arguments<R: Env + Files + Print + Eprint + Alloc>(rt: &R) -> io::Result<Option<bool>> {
    for i in 1..usize::MAX {
        match run_argument(rt, i)? {
            Some(true) => {}
            Some(false) => return Ok(Some(false)),
            None if i == 1 => return Ok(None),
            None => return Ok(Some(true)),
        }
    }
    Ok(Some(true))
}

// Standard input, or the files that the arguments name.
fn main(rt: HostRuntime) -> io::Result<ExitCode> {
    let is_run = match run_arguments(&rt)? {
        Some(is_run) => is_run,
        None => run_named(&rt, "standard input", &mut rt.stdin())?,
    };
    Ok(if is_run {
        ExitCode::SUCCESS
    } else {
        ExitCode::FAILURE
    })
}
