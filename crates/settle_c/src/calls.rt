ghost use Rattle.std.specs.Prelude.{◌≡◌};
ghost use Rattle.history.specs.Calls.{Abandon, Claim, Close, Enter, Open, Show};
ghost use Rattle.register.specs.Calls.{call_of};
ghost use Rattle.settle_c.specs.Handles.{KeepsPromise, Plays, side_named};

use crate::handle::Handle;
use chart::side::Side;
use file_registers::outcome::Outcome;
use register::call::Call;
use std::alloc::Global;

/// The number of the refusal where a handle has no register.
pub(crate) const NO_REGISTER: u16 = 91;

/// The lower side or the upper one.
pub(crate) fn side(lower: bool) -> Side
    ensures { result ≡ side_named lower }
{
    if lower { Side::Lower } else { Side::Upper }
}

/// Plays a call on the register of a handle.
// Inlined, as what it calls is, so that of the match on the call each function keeps its own case.
#[inline(always)]
fn play(heap: Global, handle: &mut Handle, call: Call<'_>) -> Outcome
    ensures plays { Plays handle.old.register (call_of call.entry) result handle.new.register }
    ensures promise { KeepsPromise handle.new.register }
{
    match handle.take(heap) {
        Some(mut register) => {
            let outcome = register.call(call);
            handle.put(heap, register);
            outcome
        }
        None => Outcome::refusal(NO_REGISTER),
    }
}

/// Opens a draft of claims on a side.
#[unsafe(no_mangle)]
pub extern "C" fn settle_open(heap: Global, handle: &mut Handle, lower: bool) -> Outcome
    ensures plays { Plays handle.old.register (Open (side_named lower)) result handle.new.register }
    ensures promise { KeepsPromise handle.new.register }
{
    play(heap, handle, Call::Open(side(lower)))
}

/// Claims that the value bounds the distance of a pair on the draft's side.
#[unsafe(no_mangle)]
pub extern "C" fn settle_claim(
    heap: Global,
    handle: &mut Handle,
    s: usize,
    t: usize,
    value: u32,
) -> Outcome
    ensures plays { Plays handle.old.register (Claim s t value) result handle.new.register }
    ensures promise { KeepsPromise handle.new.register }
{
    play(heap, handle, Call::Claim { s, t, value })
}

/// The draft takes no more claims, and then showings.
#[unsafe(no_mangle)]
pub extern "C" fn settle_close(heap: Global, handle: &mut Handle) -> Outcome
    ensures plays { Plays handle.old.register Close result handle.new.register }
    ensures promise { KeepsPromise handle.new.register }
{
    play(heap, handle, Call::Close)
}

/// Shows the claim of a pair by these words.
#[unsafe(no_mangle)]
pub extern "C" fn settle_show(
    heap: Global,
    handle: &mut Handle,
    s: usize,
    t: usize,
    words: &[i32],
) -> Outcome
    ensures plays { Plays handle.old.register (Show s t words.now) result handle.new.register }
    ensures promise { KeepsPromise handle.new.register }
{
    play(heap, handle, Call::Show { s, t, words })
}

/// Writes the draft's claims into the table of its side.
#[unsafe(no_mangle)]
pub extern "C" fn settle_enter(heap: Global, handle: &mut Handle) -> Outcome
    ensures plays { Plays handle.old.register Enter result handle.new.register }
    ensures promise { KeepsPromise handle.new.register }
{
    play(heap, handle, Call::Enter)
}

/// Forgets the draft.
#[unsafe(no_mangle)]
pub extern "C" fn settle_abandon(heap: Global, handle: &mut Handle) -> Outcome
    ensures plays { Plays handle.old.register Abandon result handle.new.register }
    ensures promise { KeepsPromise handle.new.register }
{
    play(heap, handle, Call::Abandon)
}
