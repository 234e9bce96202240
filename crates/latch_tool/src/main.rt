//! The program `latch`: reads a script of requests, runs it and writes what happened.
#![tactic(auto)]

mod form;
mod run;
mod status;
#[cfg(test)]
mod tests;

use crate::run::run;
use crate::status::Status;
use port_io::{ReadSource, WriteSink};
use std::process::ExitCode;
use std::{env, io};

fn main(rt: HostRuntime) -> ExitCode {
    let alloc = rt.alloc();
    let mut source = ReadSource::new(rt.reader());
    let mut sink = WriteSink::new(io::writer(&rt));
    let status = match env::args(&rt) {
        Ok(args) => {
            let Ok(words) = args.skip(1).collect::<Vec<String>>(alloc) else {
                return ExitCode::from(Status::Memory.code());
            };
            run(&rt, alloc, words.as_slice(), &mut source, &mut sink)
        }
        Err(fault) if fault.kind() == io::ErrorKind::OutOfMemory => {
            return ExitCode::from(Status::Memory.code());
        }
        // A word that isn't text is no word of the program's.
        Err(_) => run(&rt, alloc, &[], &mut source, &mut sink),
    };
    ExitCode::from(status.code())
}
