//! `trials < LINES`: plays the lines of a trial, and writes what each comes to, for comparison with the independent model in `model/`.
//!
//! The lines are those of `settle`, and lines that read charts and make registers (see model/README.md).

#![tactic(auto)]

mod failure;
mod in_hand;
mod making;
mod register_of;

use failure::Failure;
use in_hand::InHand;
use std::io::{BufReader, BufWriter, Write};
use std::process::ExitCode;

fn run(rt: &HostRuntime) -> Result<(), Failure> {
    let input = BufReader::new(rt.alloc(), rt.stdin())?;
    let mut out = BufWriter::new(rt.alloc(), rt.stdout())?;
    let played = InHand::new()?.play_lines(rt.alloc(), input, &mut out);
    let flushed = out.flush();
    played?;
    Ok(flushed?)
}

fn main(rt: HostRuntime) -> ExitCode {
    match run(&rt) {
        Ok(()) => ExitCode::SUCCESS,
        Err(failure) => {
            let _ = eprintln!(rt; "trials: {failure}");
            ExitCode::FAILURE
        }
    }
}
