//! The place where C keeps what a handle holds: a pointer that means nothing to C.
ghost use Rattle.std.specs.Prelude.{◌≡◌, Option, Some, None, IsSome};
ghost use Rattle.jdoc_c.specs.declared.held.Held.{Held};
ghost use Rattle.jdoc_c.specs.Slot.{held_coded, slot_owns};

use crate::held::Held;
use crate::parts::Parts;
use std::alloc::Global;
use std::marker::Model;

/// A pointer to what is held, or null. Contracts see what that is.
#[repr(C)]
#[derive(Drop)]
pub struct Slot {
    at: *mut u8,
    alloc: Global,
    pub ghost held: { Option Held } by { held_coded },
}

impl Model for Slot {
    ghost also_owns = { λ s. slot_owns s.alloc s.at s.held };
}

impl Slot {
    /// A slot that holds nothing.
    pub fn empty(alloc: Global) -> Slot
        ensures { result.held ≡ None }
    {
        Slot {
            at: std::ptr::null_mut(),
            alloc,
        }
    }

    /// A slot that holds what the box does.
    pub fn of(value: Box<Held>) -> Slot
        ensures { result.held ≡ Some value.value }
    {
        Slot::of_parts(Parts::of(value))
    }

    /// The box of what it holds.
    pub fn into_box(self) -> Box<Held>
        requires { IsSome self.held }
        ensures { self.held ≡ Some result.value }
    {
        self.into_parts().into_box()
    }

    fn of_parts(parts: Parts<Held, Global>) -> Slot
        ensures { result.held ≡ Some parts.value }
    {
        let Parts { ptr, alloc } = parts;
        Slot {
            at: ptr as *mut u8,
            alloc,
        }
    }

    fn into_parts(self) -> Parts<Held, Global>
        requires { IsSome self.held }
        ensures { self.held ≡ Some result.value }
    {
        let Slot { at, alloc } = self;
        Parts {
            ptr: at as *mut Held,
            alloc,
        }
    }
}
