//! The handle by which C calls a set of locks: a pointer to a seat (a thread's right to call), or null.
ghost use Rattle.std.specs.Prelude.{◌≡◌, ◌↔◌, IfNone, IfSome, IsSome, IsTrue};
ghost use Rattle.std.specs.Option.{option_flatten};
ghost use Rattle.std.specs.declared.option.Option.{Option};
ghost use Rattle.std.specs.declared.option.Option.TheVariants.{None, Some};
ghost use Rattle.std.specs.Coded.{coded_option};
ghost use Rattle.arachne_handle.specs.Kept.{kept};
ghost use Rattle.arachne_exec_c.specs.Seating.{Seating};
ghost use Rattle.arachne_exec_c.specs.SeatingRow.{row};

use crate::seated::Seated;
use arachne_handle::Handle;
use std::alloc::Global;
use std::marker::Model;
use std::mem;

/// C's handle on a set of locks: one pointer, to a thread's right to use them (a seat), or null if the handle is empty.
#[repr(C)]
pub struct ArachneLocks {
    at: *mut u8,
    alloc: Global,
    pub ghost value: { Option (Option Seating) } by { coded_option row.coded },
}

impl Model for ArachneLocks {
    ghost also_owns = { λ seat. kept row seat.alloc seat.at seat.value };
}

impl ArachneLocks {
    fn of_handle(handle: Handle<Option<Seated>>) -> ArachneLocks
        ensures { result.value ≡ handle.value }
    {
        let Handle { at, alloc } = handle;
        ArachneLocks {
            at: at as *mut u8,
            alloc,
        }
    }

    fn into_handle(self) -> Handle<Option<Seated>>
        ensures { result.value ≡ self.value }
    {
        let ArachneLocks { at, alloc } = self;
        Handle {
            at: at as *mut Option<Seated>,
            alloc,
        }
    }

    /// Leaves the handle empty, and returns its box, if it held one.
    pub(crate) fn take(&mut self, alloc: Global) -> Option<Box<Option<Seated>>>
        ensures none { IfNone result (self.old.value ≡ None) }
        ensures some { IfSome result (λ taken. self.old.value ≡ Some taken.value) }
        ensures left { self.new.value ≡ None }
    {
        let empty = ArachneLocks::of_handle(Handle::empty(alloc));
        mem::replace(self, empty).into_handle().into_box()
    }

    /// Puts `value` into the handle, and frees the box that it held before.
    pub(crate) fn put(&mut self, value: Box<Option<Seated>>)
        ensures { self.new.value ≡ Some value.value }
    {
        *self = ArachneLocks::of_handle(Handle::of(value));
    }

    pub(crate) fn is_in_use(&mut self, alloc: Global) -> bool
        ensures used { IsTrue result ↔ IsSome (option_flatten self.old.value) }
        ensures same { self.new.value ≡ self.old.value }
    {
        let Some(value) = self.take(alloc) else {
            return false;
        };
        let used = value.is_some();
        self.put(value);
        used
    }
}

impl Drop for ArachneLocks {
    fn drop(self) {
        drop(self.into_handle().into_box());
    }
}

unsafe impl Send for ArachneLocks {}
