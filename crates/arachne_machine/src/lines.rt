//! Report lines in several lists, so that joining a child with many descendants copies few lines.
ghost use Rattle.std.specs.Prelude.{◌≡◌, ◌+◌, ◌-◌, ◌≤◌, ◌<◌, ◌^◌, List, [], ◌∷◌, ◌++◌, get_or, length, vec_len, vec_capacity, IfOk, IfErr, OnOk, OnErr};
ghost use Rattle.arachne_program.specs.Effects.{tabulated};
ghost use Rattle.arachne_machine.specs.declared.line.ThreadLine.{ThreadLine};
ghost use Rattle.arachne_machine.specs.Lines.{CountsHoldAt, lines_in};

use crate::line::{Label, LineView, ThreadLine};
use crate::line_list::{LineList, quarter_of};
use crate::thread_lines::ThreadLines;
use arachne_program::Name;
use std::alloc::{AllocError, Global};
use std::marker::Model;
use std::mem::replace;

/// The greatest number of lines that a join copies; it moves a longer list as a whole.
const MOST_MOVED: usize = 1000;

const MOST: usize = usize::MAX / 2;

/// The report lines of threads, in a few lists. Most lines are copied only once, when the report is complete.
#[derive(Debug, Drop)]
pub struct Lines {
    earlier: Vec<LineList>,
    count: usize,
    last: LineList,
}

impl Model for Lines {
    ghost use Rattle.std.specs.Prelude.{◌++◌, List, length};
    ghost use Rattle.arachne_machine.specs.declared.line.ThreadLine.{ThreadLine};
    ghost use Rattle.arachne_machine.specs.Lines.{IsCounted, lines_in};

    ghost Value = { List ThreadLine };

    ghost view = { λ l. lines_in l.earlier.items ++ l.last.lines };

    ghost invariant = { λ l. IsCounted l.earlier.items l.count (length l.last.lines) };
}

impl Lines {
    /// Returns an empty list. Allocates no memory.
    #[inline(always)]
    pub fn new(alloc: Global, locks: u8) -> Lines
        ensures { result ≡ [] }
    {
        Lines {
            earlier: Vec::new(alloc),
            count: 0,
            last: LineList::new(alloc, usize::from(locks)),
        }
    }

    /// Removes all lines, and makes this a list for a program with `locks` locks. Keeps the memory of the list `last`.
    #[inline(always)]
    pub fn clear(&mut self, locks: u8)
        ensures { self.new ≡ [] }
    {
        self.earlier.clear();
        self.count = 0;
        self.last.clear(usize::from(locks));
    }

    #[inline(always)]
    pub fn len(&self) -> usize
        ensures length { result ≡ length self.now }
        ensures few { result < 2 ^ 63 }
    {
        self.count + self.last.len()
    }

    /// Appends the line of a thread that has held no lock, in a program with `locks` locks. If memory is refused, only
    /// lists' capacities may change.
    #[inline(always)]
    pub fn push(
        &mut self,
        alloc: Global,
        name: Name,
        label: Label,
        locks: u8,
    ) -> Result<(), AllocError>
        ensures ok { OnOk result (self.new ≡ self.old ++ record { name = name; tag = label.tag; holds = tabulated locks (λ lock. 0); ran = label.ran } ∷ []) }
        ensures few { OnOk result (length self.new < 2 ^ 63) }
        ensures err { OnErr result (self.new ≡ self.old) }
    {
        if self.len() >= MOST {
            return Err(AllocError);
        }
        if self.last.locks() != usize::from(locks) || self.last.quarter() != quarter_of(label.tag) {
            return self.push_apart(alloc, name, label, locks);
        }
        self.last.push(name, label)?;
        Ok(())
    }

    #[cold]
    #[inline(never)]
    fn push_apart(
        &mut self,
        alloc: Global,
        name: Name,
        label: Label,
        locks: u8,
    ) -> Result<(), AllocError>
        requires { length self.old + 1 < 2 ^ 63 }
        ensures ok { OnOk result (self.new ≡ self.old ++ record { name = name; tag = label.tag; holds = tabulated locks (λ lock. 0); ran = label.ran } ∷ []) }
        ensures few { OnOk result (length self.new < 2 ^ 63) }
        ensures err { OnErr result (self.new ≡ self.old) }
    {
        self.earlier.try_reserve(1)?;
        let mut own = LineList::for_tag(alloc, usize::from(locks), label.tag);
        own.push(name, label)?;
        self.count += self.last.len();
        let list = replace(&mut self.last, own);
        self.earlier.push_reserved(list);
        Ok(())
    }

    #[inline(always)]
    pub fn at(&self, place: usize) -> LineView<'_>
        requires { place < length self.now }
        ensures { (other : ThreadLine) → result ≡ get_or self.now place other }
    {
        if place >= self.count {
            return self.last.at(place - self.count);
        }
        line_in(&self.earlier, place)
    }

    pub fn count_hold(&mut self, place: usize, lock: u64)
        requires { place < length self.old }
        ensures { CountsHoldAt self.old self.new place lock }
    {
        if place >= self.count {
            self.last.count_hold(place - self.count, lock);
        } else {
            count_hold_in(&mut self.earlier, place, lock);
        }
    }

    /// Moves `own`, a joined child's line, and then `below`, its descendants' lines, to the end of this list. If memory
    /// is refused, only lists' capacities may change.
    #[inline(always)]
    pub fn append(
        &mut self,
        alloc: Global,
        own: &mut ThreadLine,
        below: &mut Lines,
    ) -> Result<(), AllocError>
        ensures lines { OnOk result (self.new ≡ self.old ++ own.old ∷ below.old) }
        ensures few { OnOk result (length self.new < 2 ^ 63) }
        ensures err { OnErr result (self.new ≡ self.old) }
        ensures own { OnErr result (own.new ≡ own.old) }
        ensures below { OnErr result (below.new ≡ below.old) }
    {
        if below.len() >= MOST - self.len() {
            return Err(AllocError);
        }
        let locks = self.last.locks();
        let quarter = self.last.quarter();
        let is_small = below.earlier.is_empty() && below.last.len() <= MOST_MOVED;
        let has_locks = own.holds.as_slice().len() == locks && below.last.locks() == locks;
        let has_quarter = quarter_of(own.tag) == quarter && below.last.quarter() == quarter;
        if is_small && has_locks && has_quarter {
            self.last.append(alloc, own, &mut below.last)?;
            return Ok(());
        }
        self.append_many(alloc, own, below)
    }

    /// Appends like `append`, but moves whole lists instead of copying their lines.
    #[cold]
    #[inline(never)]
    fn append_many(
        &mut self,
        alloc: Global,
        own: &mut ThreadLine,
        below: &mut Lines,
    ) -> Result<(), AllocError>
        requires { length below.old + length self.old + 1 < 2 ^ 63 }
        ensures lines { OnOk result (self.new ≡ self.old ++ own.old ∷ below.old) }
        ensures few { OnOk result (length self.new < 2 ^ 63) }
        ensures err { OnErr result (self.new ≡ self.old) }
        ensures own { OnErr result (own.new ≡ own.old) }
        ensures below { OnErr result (below.new ≡ below.old) }
    {
        self.earlier.try_reserve(below.earlier.len() + 2)?;
        let first = LineList::of(alloc, own)?;
        self.count = self.count + self.last.len() + 1 + below.count;
        below.count = 0;
        let last = replace(&mut below.last, LineList::new(alloc, 0));
        let list = replace(&mut self.last, last);
        self.earlier.push_reserved(list);
        self.earlier.push_reserved(first);
        let _ = self.earlier.append(&mut below.earlier);
        Ok(())
    }

    /// Moves `own` and all lines of this list, without a copy, into a `ThreadLines`, or does nothing if memory is
    /// refused.
    pub fn complete(
        &mut self,
        alloc: Global,
        own: &mut ThreadLine,
    ) -> Result<ThreadLines, AllocError>
        ensures lines { IfOk result (λ all. all ≡ own.old ∷ self.old) }
        ensures err { OnErr result (self.new ≡ self.old) }
        ensures own { OnErr result (own.new ≡ own.old) }
    {
        let mut lists = Vec::with_capacity(alloc, self.earlier.len() + 2)?;
        let first = LineList::of(alloc, own)?;
        let count = self.len() + 1;
        lists.push_reserved(first);
        let _ = lists.append(&mut self.earlier);
        lists.push_reserved(replace(&mut self.last, LineList::new(alloc, 0)));
        self.count = 0;
        Ok(ThreadLines::of(lists, count))
    }
}

#[cold]
#[inline(never)]
fn line_in(lists: &Vec<LineList>, place: usize) -> LineView<'_>
    requires { place < length (lines_in lists.now.items) }
    ensures { (other : ThreadLine) → result ≡ get_or (lines_in lists.now.items) place other }
{
    let mut at = 0;
    let mut left = place;
    while left >= lists[at].len() {
        left -= lists[at].len();
        at += 1;
    }
    lists[at].at(left)
}

#[cold]
#[inline(never)]
fn count_hold_in(lists: &mut Vec<LineList>, place: usize, lock: u64)
    requires { place < length (lines_in lists.old.items) }
    ensures { CountsHoldAt (lines_in lists.old.items) (lines_in lists.new.items) place lock }
{
    let mut at = 0;
    let mut left = place;
    while left >= lists[at].len() {
        left -= lists[at].len();
        at += 1;
    }
    let list = &mut lists[at];
    list.count_hold(left, lock);
}
