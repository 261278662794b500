//! The program: plays a schedule from standard input, runs a workload that it generates, or answers
//! the lines of `behind`, `memo` or `gateway`, and writes to standard output.
#![tactic(auto)]

mod help;

use help::told_text;
use moka_behind_run::behind;
use moka_ends::{ReadSource, WriteSink};
use moka_gateway_run::gateway;
use moka_keepers::PlainKeeper;
use moka_lines::Status;
use moka_make::{make, makes_write_one};
use moka_memo_run::memo;
use moka_run::play;
use std::collections::HashMap;
use std::process::ExitCode;
use std::{env, io};

/// Ends with the status, and tells it on standard error but where all is done.
fn main(rt: HostRuntime) -> ExitCode {
    let status = match words(&rt) {
        Ok(words) => obey(&rt, &words),
        Err(e) => words_status(&e),
    };
    if status != Status::Done {
        let _ = eprintln!(rt; "{status}");
    }
    ExitCode::from(status.code())
}

/// The words of the command line after the program's name.
fn words(rt: &HostRuntime) -> io::Result<Vec<String>> {
    let mut words = Vec::new(rt.alloc());
    for word in env::args(rt)?.skip(1) {
        words.push(word)?;
    }
    Ok(words)
}

/// The status where the words can't be had: one of them is no text, or memory ran out.
fn words_status(e: &io::Error) -> Status {
    match e.kind() {
        io::ErrorKind::OutOfMemory => Status::Memory,
        _ => Status::BadWords,
    }
}

/// Does what the words say, and answers how it ended.
fn obey(rt: &HostRuntime, words: &[String]) -> Status {
    match told_text(words) {
        Some(text) => tell(rt, text),
        None => run_standard(rt, words),
    }
}

/// Prints a text about the program.
fn tell(rt: &HostRuntime, text: &str) -> Status {
    match print!(rt; "{text}") {
        Ok(()) => Status::Done,
        Err(_) => Status::WriteFault,
    }
}

/// Gives the first word, or an empty one where there is none.
fn first_word(words: &[String]) -> &str {
    match words.first() {
        Some(word) => word.as_str(),
        None => "",
    }
}

/// Runs the program of the first word from standard input to standard output: a play, unless it is
/// one of the others. Two makes of the same words write the same.
fn run_standard(rt: &HostRuntime, words: &[String]) -> Status {
    let alloc = rt.alloc();
    let mut source = ReadSource::new(rt.stdin());
    let mut sink = WriteSink::new(rt.stdout());
    match first_word(words) {
        "behind" => {
            let mut keeper = PlainKeeper::new(HashMap::new(alloc));
            behind(alloc, words, &mut source, &mut sink, &mut keeper)
        }
        "make" => {
            makes_write_one();
            make(alloc, words, &mut source, &mut sink)
        }
        "memo" => memo(alloc, words, &mut source, &mut sink),
        "gateway" => gateway(alloc, words, &mut source, &mut sink),
        _ => play(alloc, words, &mut source, &mut sink),
    }
}
