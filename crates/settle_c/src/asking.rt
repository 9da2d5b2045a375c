ghost use Rattle.std.specs.Prelude.{◌≡◌};
ghost use Rattle.history.specs.Calls.{Ask};
ghost use Rattle.settle_c.specs.Handles.{KeepsPromise, Plays, Weighs, sections, side_named};

use crate::calls::{NO_REGISTER, side};
use crate::handle::Handle;
use file_registers::outcome::Outcome;
use std::alloc::Global;

/// How many sections the register's chart has, and 0 where there is no register.
#[unsafe(no_mangle)]
pub extern "C" fn settle_sections(heap: Global, handle: &mut Handle) -> usize
    ensures count { result ≡ sections handle.old.register }
    ensures same { handle.new.register ≡ handle.old.register }
{
    match handle.take(heap) {
        Some(register) => {
            let sections = register.sections();
            handle.put(heap, register);
            sections
        }
        None => 0,
    }
}

/// The lower entry of a pair, the upper entry, and what they say.
#[unsafe(no_mangle)]
pub extern "C" fn settle_ask(heap: Global, handle: &mut Handle, s: usize, t: usize) -> Outcome
    ensures plays { Plays handle.old.register (Ask s t) result handle.new.register }
    ensures promise { KeepsPromise handle.new.register }
    ensures same { handle.new.register ≡ handle.old.register }
{
    match handle.take(heap) {
        Some(register) => {
            let outcome = register.ask(s, t);
            handle.put(heap, register);
            outcome
        }
        None => Outcome::refusal(NO_REGISTER),
    }
}

/// Weighs a showing in the table of a side, with no claims laid over it.
#[unsafe(no_mangle)]
pub extern "C" fn settle_weigh(
    heap: Global,
    handle: &mut Handle,
    lower: bool,
    s: usize,
    t: usize,
    words: &[i32],
) -> Outcome
    ensures weighs { Weighs handle.old.register (side_named lower) s t words.now result }
    ensures same { handle.new.register ≡ handle.old.register }
{
    match handle.take(heap) {
        Some(register) => {
            let outcome = register.weigh(side(lower), s, t, words);
            handle.put(heap, register);
            outcome
        }
        None => Outcome::refusal(NO_REGISTER),
    }
}
