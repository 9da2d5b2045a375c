//! Plays the worked cases, and writes what each of their calls comes to.

#![tactic(auto)]

mod cases;
mod chart_files;
mod charts;
mod playing;

use cases::worked_cases;
use playing::write_case;
use std::io;
use std::io::{BufWriter, Write};
use std::process::ExitCode;

fn run(rt: &HostRuntime) -> io::Result<()> {
    let mut out = BufWriter::new(rt.alloc(), rt.stdout())?;
    for case in worked_cases() {
        write_case(rt.alloc(), case, &mut out)?;
    }
    out.flush()
}

fn main(rt: HostRuntime) -> ExitCode {
    match run(&rt) {
        Ok(()) => ExitCode::SUCCESS,
        Err(error) => {
            let _ = eprintln!(rt; "cases: {error}");
            ExitCode::FAILURE
        }
    }
}
