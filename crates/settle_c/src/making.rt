ghost use Rattle.std.specs.Prelude.{◌≡◌, None};
ghost use Rattle.settle_c.specs.Handles.{MakesOfOne, MakesOfTwo, Stands};

use crate::handle::Handle;
use file_registers::outcome::Outcome;
use file_registers::registers::{FileRegister, NotMade};
use std::alloc::Global;

/// The number of the refusal where there is no memory for a register.
const NO_MEMORY: u16 = 90;

/// Makes a register of the chart in a file with these bytes and a top of that number.
#[unsafe(no_mangle)]
pub extern "C" fn settle_new(heap: Global, handle: &mut Handle, chart: &[u8], top: u32) -> Outcome
    ensures { MakesOfOne chart.now top handle.old.register result handle.new.register }
{
    stand(heap, handle, FileRegister::of_one(chart, top.into()))
}

/// The same for a test that is sat twice, under the charts in two files.
#[unsafe(no_mangle)]
pub extern "C" fn settle_new_twice(
    heap: Global,
    handle: &mut Handle,
    first: &[u8],
    second: &[u8],
    top: u32,
) -> Outcome
    ensures { MakesOfTwo first.now second.now top handle.old.register result handle.new.register }
{
    stand(
        heap,
        handle,
        FileRegister::of_two(first, second, top.into()),
    )
}

/// Puts a register that is made into a handle, or tells why none is made.
fn stand(heap: Global, handle: &mut Handle, made: Result<FileRegister, NotMade>) -> Outcome
    ensures { Stands made handle.old.register result handle.new.register }
{
    let register = match made {
        Ok(register) => register,
        Err(reason) => return Outcome::of_not_made(reason),
    };
    let sections = register.sections();
    match Box::new(heap, register) {
        Ok(register) => {
            handle.put(heap, register);
            Outcome::answer(sections as u32)
        }
        Err(_) => Outcome::refusal(NO_MEMORY),
    }
}

/// Forgets the register, and frees its memory.
#[unsafe(no_mangle)]
pub extern "C" fn settle_free(heap: Global, handle: &mut Handle)
    ensures { handle.new.register ≡ None }
{
    let _ = handle.take(heap);
}
