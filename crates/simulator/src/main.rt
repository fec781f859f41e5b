//! simulator [--strict] [SCRIPT]: answers the lines of a script, from a file or from standard input, as they come.
#![tactic(auto)]

use answering::{Failure, Simulator};
use anyhow::anyhow;
use options::Options;
use std::io::{BufRead, BufReader, BufWriter, Write};
use std::process::ExitCode;
use std::{env, fs};

mod answering;
mod options;

fn main(rt: HostRuntime) -> ExitCode {
    match run(&rt) {
        Ok(status) => status,
        Err(error) => {
            // where no message can be written, the status tells
            let _ = eprintln!(rt; "simulator: {error}");
            ExitCode::FAILURE
        }
    }
}

fn run(rt: &HostRuntime) -> anyhow::Result<ExitCode> {
    let Options { strict, script } = options::from_args(env::args(rt)?)?;
    let errors = match script {
        Some(path) => serve_file(rt, path.as_str())?,
        None => Some(serve(rt, BufReader::new(rt.alloc(), rt.stdin())?)?),
    };
    let Some(errors) = errors else {
        return Ok(ExitCode::FAILURE);
    };
    if strict && errors > 0 {
        return Err(anyhow!("a line was in error"));
    }
    Ok(ExitCode::SUCCESS)
}

// The whole file is read first, so that nothing runs of one that cannot be read. Why it cannot is told here, since an error of
// `anyhow` keeps no more than 120 bytes, and a path may be longer.
fn serve_file(rt: &HostRuntime, path: &str) -> anyhow::Result<Option<u64>> {
    match fs::read(rt, path) {
        Ok(text) => Ok(Some(serve(rt, text.as_slice())?)),
        Err(error) => {
            eprintln!(rt; "simulator: cannot read {path}: {error}")?;
            Ok(None)
        }
    }
}

// Answers each line before the next is read, and says how many were in error.
fn serve<B: BufRead + Drop>(rt: &HostRuntime, input: B) -> anyhow::Result<u64> {
    let heap = rt.alloc();
    let mut simulator = Simulator::new(heap, BufWriter::new(heap, rt.stdout())?);
    let mut errors: u64 = 0;
    for (number, line) in (1u64..).zip(input.split(heap, b'\n')) {
        match simulator.answer(line?.as_slice()) {
            Ok(()) => {}
            Err(Failure::Output(error)) => return Err(error.into()),
            Err(failure) => {
                writeln!(simulator.out, "error line {number}: {failure}")?;
                errors = errors.saturating_add(1);
            }
        }
        simulator.out.flush()?;
    }
    Ok(errors)
}
