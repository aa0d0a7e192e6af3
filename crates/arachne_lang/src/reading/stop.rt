//! The error of a parsing function, which has the text from the error on, and its conversion to an error with a byte
//! index.
ghost use Rattle.std.specs.Prelude.{◌≡◌};
ghost use Rattle.arachne_lang.specs.declared.reading.stop.Stop.TheVariants.{Memory};

use crate::text_fault::TextFault;
use std::alloc::AllocFailed;

/// The error of a parsing function. An error in the text has the text from the faulty byte on.
#[derive(Clone, Copy)]
pub enum Stop<'t> {
    /// Memory was refused, which says nothing about the text.
    Memory,
    /// At the front of this text the grammar is broken, or the text ends too early.
    Departs(&'t [u8]),
    /// The digit at the front of this text takes a number out of its range.
    Overflows(&'t [u8]),
    /// The opening bracket at the front of this text is nested too deep.
    TooDeep(&'t [u8]),
}

impl<'t> Stop<'t> {
    ghost use Rattle.arachne_lang.specs.Reading.{fault_within};

    /// Converts this error to one with a byte index into the whole text `text`.
    pub fn fault(self, text: &[u8]) -> TextFault
        ensures { result ≡ fault_within text.now self.entry }
    {
        let at = |rest: &[u8]| text.len().saturating_sub(rest.len());
        match self {
            Stop::Memory => TextFault::Memory,
            Stop::Departs(rest) => TextFault::Syntax { at: at(rest) },
            Stop::Overflows(rest) => TextFault::Number { at: at(rest) },
            Stop::TooDeep(rest) => TextFault::Nesting { at: at(rest) },
        }
    }
}

impl<'t, T: Drop> From<AllocFailed<T>> for Stop<'t> {
    ghost from_gives = { λ _ stop. stop ≡ Memory };

    fn from(_error: AllocFailed<T>) -> Stop<'t> {
        Stop::Memory
    }
}
