ghost use Rattle.std.specs.Prelude.{◌≡◌, None, Some, Option, option_map};
ghost use Rattle.file_registers.specs.declared.registers.FileRegister.{FileRegister};

use file_registers::registers::FileRegister;
use std::alloc::Global;
use std::marker::Model;
use std::{mem, ptr};

/// A register on the heap, or none, as C holds it: where it is, or null.
#[repr(C)]
pub struct Handle {
    at: *mut FileRegister,
    ghost register: { Option FileRegister },
}

impl Model for Handle {
    ghost use Rattle.file_registers.specs.contracts.registers.FileRegister.{the_row};
    ghost use Rattle.settle_c.specs.Held.{holds};

    ghost also_owns = { λ h. holds the_row h.at h.register };
}

impl Handle {
    /// A handle of no register.
    fn none() -> Handle
        ensures { result.register ≡ None }
    {
        Handle {
            at: ptr::null_mut(),
        }
    }

    /// A handle of the register in a box.
    fn of(register: Box<FileRegister>) -> Handle
        ensures { result.register ≡ Some register.value }
    {
        let at = Box::into_raw(register);
        Handle { at }
    }

    /// The register in its box again.
    fn into_box(self, heap: Global) -> Option<Box<FileRegister>>
        ensures { option_map (λ b. b.value) result ≡ self.register }
    {
        let Handle { at } = self;
        if at.is_null() {
            return None;
        }
        Some(unsafe { Box::from_raw(heap, at) })
    }

    /// Takes the register out.
    pub(crate) fn take(&mut self, heap: Global) -> Option<Box<FileRegister>>
        ensures taken { option_map (λ b. b.value) result ≡ self.old.register }
        ensures left { self.new.register ≡ None }
    {
        mem::replace(self, Handle::none()).into_box(heap)
    }

    /// Puts a register in, in place of what is there.
    pub(crate) fn put(&mut self, heap: Global, register: Box<FileRegister>)
        ensures { self.new.register ≡ Some register.value }
    {
        let _ = mem::replace(self, Handle::of(register)).into_box(heap);
    }
}
