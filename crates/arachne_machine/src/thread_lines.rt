//! The report lines of all threads of a run, in several lists that need not be copied into one.
ghost use Rattle.std.specs.Prelude.{◌≡◌, ◌==◌, ◌≤◌, ◌+◌, ◌∷◌, ◌++◌, [], length, vec_len, vec_capacity, IfOk, IfErr, MatchOption};
ghost use Rattle.std.specs.Iterator.{YieldsFirst, item_count};
ghost use Rattle.arachne_machine.specs.Lines.{lines_from, lines_in};

use crate::line::{LineView, ThreadLine};
use crate::line_list::LineList;
use std::alloc::{AllocError, Global};
use std::marker::Model;

/// The report lines of all threads of a run, in several lists. Only `into_vec` copies the lines into one list.
#[derive(Debug, Drop)]
pub struct ThreadLines {
    count: usize,
    lists: Vec<LineList>,
}

// In contracts, a `ThreadLines` is one list of lines.
impl Model for ThreadLines {
    ghost use Rattle.std.specs.Prelude.{◌≡◌, List, length};
    ghost use Rattle.arachne_machine.specs.declared.line.ThreadLine.{ThreadLine};
    ghost use Rattle.arachne_machine.specs.Lines.{lines_in};

    ghost Value = { List ThreadLine };

    ghost view = { λ l. lines_in l.lists.items };

    ghost invariant = { λ l. l.count ≡ length (lines_in l.lists.items) };
}

impl ThreadLines {
    pub fn of(lists: Vec<LineList>, count: usize) -> ThreadLines
        requires { count ≡ length (lines_in lists.items) }
        ensures { result ≡ lines_in lists.items }
    {
        ThreadLines { count, lists }
    }

    pub fn len(&self) -> usize
        ensures { result ≡ length self.now }
    {
        self.count
    }

    pub fn is_empty(&self) -> bool
        ensures { result ≡ (length self.now == 0) }
    {
        self.count == 0
    }

    /// Returns an iterator over the lines, in the report's order.
    pub fn iter(&self) -> LinesLeft<'_>
        ensures { result ≡ self.now }
    {
        LinesLeft {
            lists: &self.lists,
            place: 0,
        }
    }

    /// Copies the lines into one `Vec`. If memory is refused, returns `self` as the error.
    pub fn into_vec(self, alloc: Global) -> Result<Vec<ThreadLine>, ThreadLines>
        ensures items { IfOk result (λ lines. lines.items ≡ self) }
        ensures handed_back { IfErr result (λ lines. lines ≡ self) }
    {
        match self.to_vec(alloc) {
            Ok(lines) => Ok(lines),
            Err(_) => Err(self),
        }
    }

    fn to_vec(&self, alloc: Global) -> Result<Vec<ThreadLine>, AllocError>
        ensures { IfOk result (λ lines. lines.items ≡ self.now) }
    {
        let mut lines = Vec::with_capacity(alloc, self.count)?;
        for line in self.iter() {
            lines.push(line.to_line(alloc)?)?;
        }
        Ok(lines)
    }
}

#[derive(Drop)]
pub struct LinesLeft<'a> {
    lists: &'a [LineList],
    /// The number of lines that were already returned from the first list.
    place: usize,
}

impl<'a> Model for LinesLeft<'a> {
    ghost use Rattle.std.specs.Prelude.{List};
    ghost use Rattle.arachne_machine.specs.declared.line.ThreadLine.{ThreadLine};
    ghost use Rattle.arachne_machine.specs.Lines.{lines_from};

    ghost Value = { List ThreadLine };

    ghost view = { λ l. lines_from l.place l.lists.now };
}

struct FirstLine<'a> {
    line: LineView<'a>,
    lists: &'a [LineList],
    place: usize,
}

#[inline(always)]
fn first_line<'a>(lists: &'a [LineList], place: usize) -> Option<FirstLine<'a>>
    ensures { MatchOption result (lines_from place lists.now ≡ [])
        (λ first. lines_from place lists.now ≡ first.line ∷ lines_from first.place first.lists.now) }
{
    let (mut lists, mut place) = (lists, place);
    loop {
        let (list, others) = lists.split_first()?;
        if place < list.len() {
            return Some(FirstLine {
                line: list.at(place),
                lists,
                place: place + 1,
            });
        }
        lists = others;
        place = 0;
    }
}

impl<'a> Iterator for LinesLeft<'a> {
    type Item = LineView<'a>;

    ghost next_gives = { YieldsFirst (λ lines. lines) };

    ghost remaining = { item_count (λ lines. lines) };

    #[inline(always)]
    fn next(&mut self) -> Option<LineView<'a>> {
        let FirstLine { line, lists, place } = first_line(self.lists, self.place)?;
        self.lists = lists;
        self.place = place;
        Some(line)
    }
}
