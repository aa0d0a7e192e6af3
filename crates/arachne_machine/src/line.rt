//! The line of an ended thread in the report of a run: its name, its tag (identifying number), the kind of thread slot
//! in which it ran, and how often it held each lock.
ghost use Rattle.std.specs.Prelude.{◌≡◌, IfOk};

use arachne_program::{Name, Sequence};
use std::alloc::{AllocError, Global};
use std::marker::Model;
use std::mem::replace;

/// The kind of thread slot (a core's room for one thread) in which a thread ran.
#[derive(Clone, Copy, Debug, PartialEq, Eq)]
pub enum Ran {
    /// The thread ran in a slot of its own, which was found when the thread was forked.
    Slot,
    /// The thread ran in a slot of its own, for which it had to wait.
    Spill,
    /// The thread ran inside its parent's slot, like a function call.
    InPlace,
}

/// A thread's tag (number in its run), and the kind of slot in which it runs.
#[derive(Clone, Copy, Debug)]
pub struct Label {
    pub tag: u64,
    pub ran: Ran,
}

#[derive(Debug, Drop)]
pub struct ThreadLine {
    pub name: Name,
    /// The thread's number in its run.
    pub tag: u64,
    /// For each lock, the number of times that the thread held it, modulo 2^64.
    pub holds: Sequence<u64>,
    pub ran: Ran,
}

impl ThreadLine {
    /// Returns a placeholder, for which no memory is allocated.
    #[inline(always)]
    pub(crate) fn vacant(alloc: Global) -> ThreadLine {
        ThreadLine {
            name: Name::root(alloc),
            tag: 0,
            holds: Sequence::from(Vec::new(alloc)),
            ran: Ran::Slot,
        }
    }

    #[inline(always)]
    pub(crate) fn take(&mut self, alloc: Global) -> ThreadLine
        ensures { result ≡ self.old }
    {
        replace(self, ThreadLine::vacant(alloc))
    }
}

/// A reference to one thread's line in a list of report lines.
#[derive(Drop)]
pub struct LineView<'a> {
    name: &'a Name,
    label: Label,
    holds: &'a [u64],
}

// In contracts, a `LineView` is the `ThreadLine` that it refers to.
impl<'a> Model for LineView<'a> {
    ghost use Rattle.arachne_machine.specs.declared.line.ThreadLine.{ThreadLine};

    ghost Value = { ThreadLine };

    ghost view = { λ l. record { name = l.name.now; tag = l.label.tag; holds = l.holds.now; ran = l.label.ran } };
}

impl<'a> LineView<'a> {
    ghost use Rattle.arachne_machine.specs.declared.line.ThreadLine.{ThreadLine};

    #[inline(always)]
    pub(crate) fn new(name: &'a Name, label: Label, holds: &'a [u64]) -> LineView<'a>
        ensures { result ≡ record { name = name.now; tag = label.tag; holds = holds.now; ran = label.ran } }
    {
        LineView { name, label, holds }
    }

    #[inline(always)]
    pub fn name(&self) -> &'a Name
        ensures { result.now ≡ self.now.name }
    {
        self.name
    }

    /// Returns the thread's number in its run.
    #[inline(always)]
    pub fn tag(&self) -> u64
        ensures { result ≡ self.now.tag }
    {
        self.label.tag
    }

    /// Returns, for each lock, the number of times that the thread held it, modulo 2^64.
    #[inline(always)]
    pub fn holds(&self) -> &'a [u64]
        ensures { result.now ≡ self.now.holds }
    {
        self.holds
    }

    #[inline(always)]
    pub fn ran(&self) -> Ran
        ensures { result ≡ self.now.ran }
    {
        self.label.ran
    }

    pub(crate) fn to_line(&self, alloc: Global) -> Result<ThreadLine, AllocError>
        ensures { IfOk result (λ line. line ≡ self.now) }
    {
        let mut holds = Vec::with_capacity(alloc, self.holds.len())?;
        holds.extend_from_slice(self.holds)?;
        Ok(ThreadLine {
            name: copy_of(alloc, self.name)?,
            tag: self.label.tag,
            holds: Sequence::from(holds),
            ran: self.label.ran,
        })
    }
}

fn copy_of(alloc: Global, name: &Name) -> Result<Name, AllocError>
    ensures { IfOk result (λ copy. copy ≡ name.now) }
{
    let mut copy = Name::root(alloc);
    for k in 0..name.len() {
        copy = copy.child(alloc, name.number(k))?;
    }
    Ok(copy)
}
