//! The value, ledger sums and report lines of an ended thread, without a reference to its program.
ghost use Rattle.std.specs.Prelude.{◌≡◌, ◌∷◌, IfOk, OnErr};

use crate::line::ThreadLine;
use crate::lines::Lines;
use crate::outcome::OutcomeParts;
use arachne_program::Sequence;
use std::alloc::{AllocError, Global};
use std::mem::replace;

/// The value, ledger sums and report lines of an ended thread, without a reference to its program.
///
/// A caller allocates the box around this struct before the thread ends. Joining the thread then only moves the box.
#[derive(Debug, Drop)]
pub struct Contents {
    pub(crate) value: u64,
    /// For each ledger, the total that the thread and its descendants have added, modulo 2^64.
    pub(crate) sums: Vec<u64>,
    pub(crate) own: ThreadLine,
    pub(crate) below: Lines,
}

impl Contents {
    /// Allocates a box, so that a thread's result can later be written into it without an allocation.
    pub fn new(alloc: Global) -> Result<Box<Contents>, AllocError> {
        Ok(Box::new(alloc, Contents::vacant(alloc))?)
    }

    /// Returns a placeholder, for which no memory is allocated.
    pub(crate) fn vacant(alloc: Global) -> Contents {
        Contents {
            value: 0,
            sums: Vec::new(alloc),
            own: ThreadLine::vacant(alloc),
            below: Lines::new(alloc, 0),
        }
    }

    /// Moves out of `self` the thread's value, the sums added to each ledger, and the report lines of the thread and
    /// its descendants. If memory is refused, changes nothing.
    pub(crate) fn take_parts(&mut self) -> Result<OutcomeParts, AllocError>
        ensures value { IfOk result (λ parts. parts.value ≡ self.old.value) }
        ensures sums { IfOk result (λ parts. parts.sums ≡ self.old.sums.items) }
        ensures lines { IfOk result (λ parts. parts.lines ≡ self.old.own ∷ self.old.below) }
        ensures err { OnErr result (self.new ≡ self.old) }
    {
        let alloc = *self.sums.allocator();
        let lines = self.below.complete(alloc, &mut self.own)?;
        Ok(OutcomeParts {
            value: self.value,
            sums: Sequence::from(replace(&mut self.sums, Vec::new(alloc))),
            lines,
        })
    }
}
