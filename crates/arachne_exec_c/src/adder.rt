//! The handle by which C adds to ledgers (counters): a pointer to a share, which is a thread's right to add, or null.
ghost use Rattle.std.specs.Prelude.{◌≡◌, ◌↔◌, IfNone, IfSome, IsSome, IsTrue};
ghost use Rattle.std.specs.Option.{option_flatten};
ghost use Rattle.std.specs.declared.option.Option.{Option};
ghost use Rattle.std.specs.declared.option.Option.TheVariants.{None, Some};
ghost use Rattle.std.specs.Coded.{coded_option};
ghost use Rattle.arachne_handle.specs.Kept.{kept};
ghost use Rattle.arachne_exec_c.specs.Adder.{Adder};
ghost use Rattle.arachne_exec_c.specs.AdderRow.{row};

use crate::adding::Adding;
use arachne_handle::Handle;
use std::alloc::Global;
use std::marker::Model;
use std::mem;

/// C's handle on a set of ledgers: one pointer, to a thread's right to add (a share), or null if the handle is empty.
#[repr(C)]
pub struct ArachneAdder {
    at: *mut u8,
    alloc: Global,
    pub ghost value: { Option (Option Adder) } by { coded_option row.coded },
}

impl Model for ArachneAdder {
    ghost also_owns = { λ adder. kept row adder.alloc adder.at adder.value };
}

impl ArachneAdder {
    fn of_handle(handle: Handle<Option<Adding>>) -> ArachneAdder
        ensures { result.value ≡ handle.value }
    {
        let Handle { at, alloc } = handle;
        ArachneAdder {
            at: at as *mut u8,
            alloc,
        }
    }

    fn into_handle(self) -> Handle<Option<Adding>>
        ensures { result.value ≡ self.value }
    {
        let ArachneAdder { at, alloc } = self;
        Handle {
            at: at as *mut Option<Adding>,
            alloc,
        }
    }

    /// Leaves the handle empty, and returns its box, if it held one.
    pub(crate) fn take(&mut self, alloc: Global) -> Option<Box<Option<Adding>>>
        ensures none { IfNone result (self.old.value ≡ None) }
        ensures some { IfSome result (λ taken. self.old.value ≡ Some taken.value) }
        ensures left { self.new.value ≡ None }
    {
        let empty = ArachneAdder::of_handle(Handle::empty(alloc));
        mem::replace(self, empty).into_handle().into_box()
    }

    /// Puts `value` into the handle, and frees the box that it held before.
    pub(crate) fn put(&mut self, value: Box<Option<Adding>>)
        ensures { self.new.value ≡ Some value.value }
    {
        *self = ArachneAdder::of_handle(Handle::of(value));
    }

    pub(crate) fn is_in_use(&mut self, alloc: Global) -> bool
        ensures used { IsTrue result ↔ IsSome (option_flatten self.old.value) }
        ensures same { self.new.value ≡ self.old.value }
    {
        let Some(value) = self.take(alloc) else {
            return false;
        };
        let used = value.is_some();
        self.put(value);
        used
    }
}

impl Drop for ArachneAdder {
    fn drop(self) {
        drop(self.into_handle().into_box());
    }
}

unsafe impl Send for ArachneAdder {}
