//! Counts how many accesses of the adapter the server's calls make.
//!
//! `bench CONFIG SCRIPT` plays a script over a disk in memory, for a clock outside. It promises
//! nothing of what it prints.
#![tactic(auto)]

mod counted;
mod counts;
mod memory;

use std::fs::{File, Files};
use std::process::ExitCode;
use std::rt::Env;
use std::{env, io};

/// Why there is no result.
#[derive(Clone, Copy, Debug, PartialEq, Eq)]
enum BenchError {
    /// The words are neither none nor two.
    Words,
    /// A file can't be read, the configuration or the script is wrong, a call didn't do what it should, or memory or
    /// output was refused.
    Failed,
}

fn run(rt: &(impl Env + AllocGlobal + Files<File = File> + Print)) -> Result<(), BenchError> {
    let words: Vec<String> = match env::args(rt) {
        Ok(words) => words.collect(rt.alloc()).map_err(|_| BenchError::Failed)?,
        Err(_) => return Err(BenchError::Words),
    };
    match words.as_slice() {
        [_] => counts::print_counts(rt.alloc(), &mut io::writer(rt)).ok_or(BenchError::Failed),
        [_, config, script] => memory::play_files(rt, config.as_str(), script.as_str()).ok_or(
            BenchError::Failed,
        ),
        _ => Err(BenchError::Words),
    }
}

fn main(rt: HostRuntime) -> ExitCode {
    match run(&rt) {
        Ok(()) => ExitCode::SUCCESS,
        Err(BenchError::Failed) => ExitCode::FAILURE,
        Err(BenchError::Words) => ExitCode::from(2),
    }
}
