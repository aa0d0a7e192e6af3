//! The handle by which C holds an arbiter (the state of a daemon that grants cores).
ghost use Rattle.std.specs.Prelude.{◌≡◌, ◌↔◌, IfNone, IfSome, IsSome, IsTrue};
ghost use Rattle.std.specs.declared.option.Option.{Option};
ghost use Rattle.std.specs.declared.option.Option.TheVariants.{None, Some};
ghost use Rattle.std.specs.Coded.{coded_option};
ghost use Rattle.arachne_handle.specs.Kept.{kept};
ghost use Rattle.arachne_grants.specs.declared.state.CoreArbiter.{CoreArbiter};
ghost use Rattle.arachne_grants_c.specs.ArbiterRow.{row};

use arachne_grants::CoreArbiter;
use arachne_handle::Handle;
use std::alloc::Global;
use std::marker::Model;
use std::mem;

/// C's handle on an arbiter: one pointer, which is null if the handle is empty.
#[repr(C)]
pub struct ArachneArbiter {
    at: *mut u8,
    alloc: Global,
    pub ghost value: { Option CoreArbiter } by { coded_option row.coded },
}

impl Model for ArachneArbiter {
    ghost also_owns = { λ arbiter. kept row arbiter.alloc arbiter.at arbiter.value };
}

impl ArachneArbiter {
    fn of_handle(handle: Handle<CoreArbiter>) -> ArachneArbiter
        ensures { result.value ≡ handle.value }
    {
        let Handle { at, alloc } = handle;
        ArachneArbiter {
            at: at as *mut u8,
            alloc,
        }
    }

    fn into_handle(self) -> Handle<CoreArbiter>
        ensures { result.value ≡ self.value }
    {
        let ArachneArbiter { at, alloc } = self;
        Handle {
            at: at as *mut CoreArbiter,
            alloc,
        }
    }

    /// Returns the arbiter that the handle holds, if any, and leaves the handle empty.
    pub(crate) fn take(&mut self, alloc: Global) -> Option<Box<CoreArbiter>>
        ensures none { IfNone result (self.old.value ≡ None) }
        ensures some { IfSome result (λ taken. self.old.value ≡ Some taken.value) }
        ensures left { self.new.value ≡ None }
    {
        let empty = ArachneArbiter::of_handle(Handle::empty(alloc));
        mem::replace(self, empty).into_handle().into_box()
    }

    /// Puts `value` into the handle. If the handle held an arbiter, frees that arbiter.
    pub(crate) fn put(&mut self, value: Box<CoreArbiter>)
        ensures { self.new.value ≡ Some value.value }
    {
        *self = ArachneArbiter::of_handle(Handle::of(value));
    }

    /// Returns true if the handle holds an arbiter.
    pub(crate) fn is_in_use(&mut self, alloc: Global) -> bool
        ensures used { IsTrue result ↔ IsSome self.old.value }
        ensures same { self.new.value ≡ self.old.value }
    {
        let Some(value) = self.take(alloc) else {
            return false;
        };
        self.put(value);
        true
    }
}

impl Drop for ArachneArbiter {
    fn drop(self) {
        drop(self.into_handle().into_box());
    }
}
