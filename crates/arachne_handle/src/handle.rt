//! A handle for C: a pointer to a box's value, or null if the handle holds no box.
ghost use Rattle.std.specs.Prelude.{◌≡◌, IfNone, IfSome};
ghost use Rattle.std.specs.declared.option.Option.{Option};
ghost use Rattle.std.specs.declared.option.Option.TheVariants.{None, Some};
ghost use Rattle.std.specs.Coded.{coded_option};
ghost use Rattle.arachne_handle.specs.Kept.{kept};

use crate::loose::Loose;
use std::alloc::Global;
use std::marker::Model;
use std::ptr::null_mut;

/// A pointer to a box's value, or null if the handle holds no box. In contracts, `value` is the value in the box.
///
/// A handle can't be dropped; `into_box` consumes it.
pub struct Handle<T> {
    pub at: *mut T,
    pub alloc: Global,
    pub ghost value: { Option T } by { coded_option T.code },
}

impl<T> Model for Handle<T> {
    ghost also_owns = { λ h. kept T.row h.alloc h.at h.value };
}

impl<T> Handle<T> {
    /// Returns an empty handle.
    pub fn empty(alloc: Global) -> Handle<T>
        ensures { result.value ≡ None }
    {
        Handle {
            at: null_mut(),
            alloc,
        }
    }

    fn of_loose(loose: Loose<T, Global>) -> Handle<T>
        ensures { result.value ≡ Some loose.value }
    {
        let Loose { at, alloc } = loose;
        Handle { at, alloc }
    }

    fn into_loose(self) -> Option<Loose<T, Global>>
        ensures nothing { IfNone result (self.value ≡ None) }
        ensures value { IfSome result (λ loose. self.value ≡ Some loose.value) }
    {
        let Handle { at, alloc } = self;
        if at.is_null() {
            None
        } else {
            Some(Loose { at, alloc })
        }
    }
}

impl<T: Drop> Handle<T> {
    /// Returns a handle that holds the box `value`.
    pub fn of(value: Box<T>) -> Handle<T>
        ensures { result.value ≡ Some value.value }
    {
        Handle::of_loose(Loose::of(value))
    }

    /// Consumes the handle, and returns its box, or `None` if it holds none.
    pub fn into_box(self) -> Option<Box<T>>
        ensures nothing { IfNone result (self.value ≡ None) }
        ensures value { IfSome result (λ value. self.value ≡ Some value.value) }
    {
        match self.into_loose() {
            Some(loose) => Some(loose.into_box()),
            None => None,
        }
    }
}

unsafe impl<T: Send> Send for Handle<T> {}
