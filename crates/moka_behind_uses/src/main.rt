//! A program that keeps pairs of numbers in a database, behind a cache that writes behind. A second run
//! finds what the first one sent.
//!
//! Given a word, it opens the file of that name, and makes it where there is none. Given none, it makes
//! two runs over one database in memory.
#![tactic(auto)]

mod keeping;
mod run_error;
mod sqlite_keeper;

use keeping::run;
use run_error::RunError;
use sqlite::Connection;
use sqlite_keeper::SqliteKeeper;
use std::env;
use std::process::ExitCode;

fn main(rt: HostRuntime) -> ExitCode {
    match keep(&rt) {
        Ok(()) => ExitCode::SUCCESS,
        Err(error) => {
            let _ = eprintln!(rt; "{error:?}");
            ExitCode::FAILURE
        }
    }
}

/// Keeps pairs where the words say.
fn keep(rt: &HostRuntime) -> Result<(), RunError> {
    match env::args(rt)?.nth(1) {
        Some(path) => keep_in_file(rt, &path),
        None => keep_in_memory(rt),
    }
}

/// Makes one run over the database in the file, and closes it.
fn keep_in_file(rt: &HostRuntime, path: &str) -> Result<(), RunError> {
    let mut keeper = SqliteKeeper::new(Connection::open(rt, path)?)?;
    run(rt, &mut keeper)?;
    Ok(keeper.into_database().close()?)
}

/// Makes two runs over one database in memory.
fn keep_in_memory(rt: &HostRuntime) -> Result<(), RunError> {
    let mut keeper = SqliteKeeper::new(Connection::open_in_memory(rt.alloc())?)?;
    run(rt, &mut keeper)?;
    run(rt, &mut keeper)
}
