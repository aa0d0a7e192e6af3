//! The handle by which C calls an executor: a pointer to a seat (a thread's right to call), or null.
ghost use Rattle.std.specs.Prelude.{◌≡◌, ◌↔◌, IfNone, IfSome, IsSome, IsTrue};
ghost use Rattle.std.specs.Option.{option_flatten};
ghost use Rattle.std.specs.declared.option.Option.{Option};
ghost use Rattle.std.specs.declared.option.Option.TheVariants.{None, Some};
ghost use Rattle.std.specs.Coded.{coded_option};
ghost use Rattle.arachne_handle.specs.Kept.{kept};
ghost use Rattle.arachne_exec_c.specs.Executing.{Exec};
ghost use Rattle.arachne_exec_c.specs.ExecRow.{row};

use crate::executing::Executing;
use arachne_handle::Handle;
use std::alloc::Global;
use std::marker::Model;
use std::mem;

/// C's handle on an executor: one pointer, to a thread's right to call it (a seat), or null if the handle is empty.
#[repr(C)]
pub struct ArachneExec {
    at: *mut u8,
    alloc: Global,
    pub ghost value: { Option (Option Exec) } by { coded_option row.coded },
}

impl Model for ArachneExec {
    ghost also_owns = { λ seat. kept row seat.alloc seat.at seat.value };
}

impl ArachneExec {
    fn of_handle(handle: Handle<Option<Executing>>) -> ArachneExec
        ensures { result.value ≡ handle.value }
    {
        let Handle { at, alloc } = handle;
        ArachneExec {
            at: at as *mut u8,
            alloc,
        }
    }

    fn into_handle(self) -> Handle<Option<Executing>>
        ensures { result.value ≡ self.value }
    {
        let ArachneExec { at, alloc } = self;
        Handle {
            at: at as *mut Option<Executing>,
            alloc,
        }
    }

    /// Leaves the handle empty, and returns its box, if it held one.
    pub(crate) fn take(&mut self, alloc: Global) -> Option<Box<Option<Executing>>>
        ensures none { IfNone result (self.old.value ≡ None) }
        ensures some { IfSome result (λ taken. self.old.value ≡ Some taken.value) }
        ensures left { self.new.value ≡ None }
    {
        let empty = ArachneExec::of_handle(Handle::empty(alloc));
        mem::replace(self, empty).into_handle().into_box()
    }

    /// Puts `value` into the handle, and frees the box that it held before.
    pub(crate) fn put(&mut self, value: Box<Option<Executing>>)
        ensures { self.new.value ≡ Some value.value }
    {
        *self = ArachneExec::of_handle(Handle::of(value));
    }

    pub(crate) fn is_in_use(&mut self, alloc: Global) -> bool
        ensures used { IsTrue result ↔ IsSome (option_flatten self.old.value) }
        ensures same { self.new.value ≡ self.old.value }
    {
        let Some(value) = self.take(alloc) else {
            return false;
        };
        let used = value.is_some();
        self.put(value);
        used
    }
}

impl Drop for ArachneExec {
    fn drop(self) {
        drop(self.into_handle().into_box());
    }
}

unsafe impl Send for ArachneExec {}
