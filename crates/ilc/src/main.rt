//! `ilc` compiles a CIL method body to an executable file for RV64IM, runs such a file on a machine, and prints
//! assemblies as text and makes them of it.
#![tactic(auto)]

mod command;
mod grammar;
pub mod laws;
mod outcome;
mod perform;
mod reading;
mod refusal;
mod report;
mod top;

pub use command::Command;
pub use grammar::{Argument, CommandName, CommandOption, Item};
use ilc_io::{HostFiles, StreamSink, StreamSource};
use num_core::{List, Memory, Text, TextFault};
pub use outcome::Outcome;
pub use refusal::{Fault, Field, Fields, Refusal};
use std::alloc::Global;
use std::env::{Env, FillError};
use std::process::ExitCode;
pub use top::ilc;

/// The most bytes that Linux lets a word have.
const MAX_WORD: usize = 131_072;

fn main(rt: HostRuntime) -> ExitCode {
    let alloc = rt.alloc();
    let mut files = HostFiles::new(alloc, &rt);
    let mut input = StreamSource::new(rt.stdin());
    let mut out = StreamSink::new(rt.stdout());
    let mut err = StreamSink::new(rt.stderr());
    let Ok(words) = command_line(&rt, alloc) else {
        let _ = report::report(&mut err, &Outcome::Memory);
        return ExitCode::from(Outcome::Memory.status());
    };
    ExitCode::from(ilc(
        alloc,
        words.as_slice(),
        &mut files,
        &mut input,
        &mut out,
        &mut err,
    ))
}

/// The words behind the program's name. One that isn't UTF-8 comes as the empty word.
fn command_line(system: &impl Env, alloc: Global) -> Result<List<Text>, Memory> {
    let mut words = List::new(alloc);
    let mut buffer = vec![in alloc; 0; MAX_WORD]?;
    for index in 1..usize::MAX {
        let word = match system.arg(index, &mut buffer) {
            Ok(size) => word(alloc, &buffer[..size])?,
            Err(FillError::NotPresent) => break,
            Err(_) => word(alloc, &[])?,
        };
        words.push(word).map_err(|_| Memory)?;
    }
    Ok(words)
}

/// The word of these bytes, or the empty word where they are no UTF-8.
fn word(alloc: Global, bytes: &[u8]) -> Result<Text, Memory> {
    match Text::new(alloc, bytes) {
        Ok(word) => Ok(word),
        Err(TextFault::NotUtf8(_)) => Text::new(alloc, &[]).map_err(|_| Memory),
        Err(TextFault::Memory) => Err(Memory),
    }
}

#[cfg(test)]
mod tests;
