//! A list of report lines. One array has the counts of all lines: how often each line's thread held each lock.
ghost use Rattle.std.specs.Prelude.{◌≡◌, ◌+◌, ◌*◌, ◌/◌, ◌%◌, ◌^◌, ◌<◌, ◌∷◌, ◌++◌, [], ℕ, length, get_or, IfOk, IfSome, MatchOption, OnOk, OnErr};
ghost use Rattle.arachne_program.specs.Effects.{tabulated};
ghost use Rattle.arachne_machine.specs.declared.line.ThreadLine.{ThreadLine};
ghost use Rattle.arachne_machine.specs.Lines.{CountsHoldAt, ran_of};

use crate::line::{Label, LineView, Ran, ThreadLine};
use crate::tables::push_zeros;
use arachne_program::Name;
use std::alloc::{AllocError, Global};
use std::marker::Model;

/// The number of tags in a quarter: those that have the same two highest bits.
const QUARTER: u64 = 1 << 62;

#[derive(Debug, Drop)]
struct Mark {
    name: Name,
    /// The tag's lower 62 bits, times 4, plus a number below 3 for the kind of slot.
    label: u64,
}

const _: () = prove!(size_of::<Mark>() == 40);

/// The report lines of threads of one program, which has `locks` locks. Their tags are all in one quarter.
#[derive(Debug, Drop)]
pub struct LineList {
    locks: usize,
    /// The two highest bits of all tags.
    quarter: u64,
    marks: Vec<Mark>,
    /// For each line, `locks` counts: how often its thread held each lock.
    holds: Vec<u64>,
}

// In contracts, a `LineList` is its number of locks, the quarter of its tags, and a list of whole lines.
impl Model for LineList {
    ghost use Rattle.arachne_machine.specs.Lines.{AreKept, Listed, with_holds};

    ghost Value = { Listed };

    ghost view = { λ l. record { locks = l.locks; quarter = l.quarter; lines = with_holds l.quarter l.locks l.marks.items l.holds.items } };

    ghost invariant = { λ l. AreKept l.quarter l.locks l.marks.items l.holds.items };
}

/// Returns the two highest bits of a tag.
#[inline(always)]
pub(crate) fn quarter_of(tag: u64) -> u64
    ensures { result ≡ tag / 2 ^ 62 }
{
    tag / QUARTER
}

/// Returns a label without its tag's two highest bits, in one number.
#[inline(always)]
fn packed(label: Label) -> u64
    ensures tag { result / 4 ≡ label.tag % 2 ^ 62 }
    ensures ran { ran_of (result % 4) ≡ label.ran }
{
    let code = match label.ran {
        Ran::Slot => 0,
        Ran::Spill => 1,
        Ran::InPlace => 2,
    };
    label.tag % QUARTER * 4 + code
}

/// Returns the label that is in this number, but for its tag's two highest bits, which are `quarter`.
#[inline(always)]
fn unpacked(quarter: u64, packed: u64) -> Label
    requires { quarter < 4 }
    ensures { result ≡ record { tag = quarter * 2 ^ 62 + packed / 4; ran = ran_of (packed % 4) } }
{
    let ran = match packed % 4 {
        0 => Ran::Slot,
        1 => Ran::Spill,
        _ => Ran::InPlace,
    };
    Label {
        tag: quarter * QUARTER + packed / 4,
        ran,
    }
}

impl LineList {
    /// Returns an empty list for tags below 2^62. Allocates no memory.
    #[inline(always)]
    pub fn new(alloc: Global, locks: usize) -> LineList
        ensures { result ≡ record { locks = locks; quarter = 0; lines = [] } }
    {
        LineList::for_tag(alloc, locks, 0)
    }

    /// Returns an empty list for tags that have the same two highest bits as `tag`. Allocates no memory.
    #[inline(always)]
    pub fn for_tag(alloc: Global, locks: usize, tag: u64) -> LineList
        ensures { result ≡ record { locks = locks; quarter = tag / 2 ^ 62; lines = [] } }
    {
        LineList {
            locks,
            quarter: quarter_of(tag),
            marks: Vec::new(alloc),
            holds: Vec::new(alloc),
        }
    }

    /// Removes all lines, and makes this a list for a program with `locks` locks and for tags below 2^62. Keeps the
    /// capacities.
    #[inline(always)]
    pub fn clear(&mut self, locks: usize)
        ensures { self.new ≡ record { locks = locks; quarter = 0; lines = [] } }
    {
        self.marks.clear();
        self.holds.clear();
        self.locks = locks;
        self.quarter = 0;
    }

    /// Moves the line `own` into a new list. If memory is refused, changes nothing.
    pub fn of(alloc: Global, own: &mut ThreadLine) -> Result<LineList, AllocError>
        ensures ok { IfOk result (λ list. list ≡ record { locks = length own.old.holds; quarter = own.old.tag / 2 ^ 62; lines = own.old ∷ [] }) }
        ensures err { OnErr result (own.new ≡ own.old) }
    {
        let locks = own.holds.as_slice().len();
        let mut list = LineList::for_tag(alloc, locks, own.tag);
        let mut none = LineList::for_tag(alloc, locks, own.tag);
        list.append(alloc, own, &mut none)?;
        Ok(list)
    }

    #[inline(always)]
    pub fn locks(&self) -> usize
        ensures { result ≡ self.now.locks }
    {
        self.locks
    }

    #[inline(always)]
    pub fn quarter(&self) -> u64
        ensures { result ≡ self.now.quarter }
    {
        self.quarter
    }

    #[inline(always)]
    pub fn len(&self) -> usize
        ensures { result ≡ length self.now.lines }
    {
        self.marks.len()
    }

    #[inline(always)]
    pub fn at(&self, place: usize) -> LineView<'_>
        requires { place < length self.now.lines }
        ensures { (other : ThreadLine) → result ≡ get_or self.now.lines place other }
    {
        let mark = &self.marks[place];
        let first = place * self.locks;
        LineView::new(
            &mark.name,
            unpacked(self.quarter, mark.label),
            &self.holds[first..first + self.locks],
        )
    }

    #[inline(always)]
    pub fn count_hold(&mut self, place: usize, lock: u64)
        requires { place < length self.old.lines }
        ensures locks { self.new.locks ≡ self.old.locks }
        ensures counts { CountsHoldAt self.old.lines self.new.lines place lock }
    {
        if lock < self.locks as u64 {
            let at = place * self.locks + lock as usize;
            self.holds[at] = self.holds[at].wrapping_add(1);
        }
    }

    /// Appends the line of a thread that has held no lock. If memory is refused, changes nothing.
    #[inline(always)]
    pub fn push(&mut self, name: Name, label: Label) -> Result<(), AllocError>
        requires { label.tag / 2 ^ 62 ≡ self.old.quarter }
        ensures ok { OnOk result (self.new ≡ record {
          locks = self.old.locks;
          quarter = self.old.quarter;
          lines = self.old.lines ++ record { name = name; tag = label.tag; holds = tabulated self.old.locks (λ lock. 0); ran = label.ran } ∷ [];
        }) }
        ensures err { OnErr result (self.new ≡ self.old) }
    {
        self.marks.try_reserve(1)?;
        push_zeros(&mut self.holds, self.locks)?;
        self.marks.push_reserved(Mark {
            name,
            label: packed(label),
        });
        Ok(())
    }

    /// Moves `own` and the lines of `below` to the end of this list. If memory is refused, only capacities may change.
    #[inline(always)]
    pub fn append(
        &mut self,
        alloc: Global,
        own: &mut ThreadLine,
        below: &mut LineList,
    ) -> Result<(), AllocError>
        requires own { length own.old.holds ≡ self.old.locks }
        requires tag { own.old.tag / 2 ^ 62 ≡ self.old.quarter }
        requires below { below.old.locks ≡ self.old.locks }
        requires below_tags { below.old.quarter ≡ self.old.quarter }
        ensures ok { OnOk result (self.new ≡ record {
          locks = self.old.locks;
          quarter = self.old.quarter;
          lines = self.old.lines ++ own.old ∷ below.old.lines;
        }) }
        ensures left { OnOk result (below.new.lines ≡ []) }
        ensures err { OnErr result (self.new ≡ self.old) }
        ensures own { OnErr result (own.new ≡ own.old) }
        ensures below { OnErr result (below.new ≡ below.old) }
    {
        self.marks.try_reserve(below.marks.len() + 1)?;
        self.holds
            .try_reserve(own.holds.as_slice().len() + below.holds.len())?;
        let ThreadLine {
            name,
            tag,
            holds,
            ran,
        } = own.take(alloc);
        let label = packed(Label { tag, ran });
        self.marks.push_reserved(Mark { name, label });
        let _ = self.marks.append(&mut below.marks);
        let mut holds = holds.into_vec();
        let _ = self.holds.append(&mut holds);
        let _ = self.holds.append(&mut below.holds);
        Ok(())
    }
}
