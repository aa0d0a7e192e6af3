//! Reads the calls of test cases, and makes those after which the seat has the same claims and threads as before.
ghost use Rattle.std.specs.Prelude.{◌≡◌, ◌<◌, List, IfSome};
ghost use Rattle.arachne_contexts.specs.Out.{Out, KeepsOut};

use super::{Bench, TagOnly};
use crate::{Claimed, Contexts, Moved, Woken};
use arachne_core::{Place, ThreadId};
use std::sync::Wait;

/// A call or its result: the name and up to two numbers, for example a core and an index, or a context and a
/// generation.
pub(super) type Told<'a> = (&'a str, u64, u64);

/// Reads a number, which is hexadecimal after `0x`, or 0 if there is none.
fn number(word: Option<&str>) -> u64 {
    let word = word.unwrap_or("");
    let Some(digits) = word.strip_prefix("0x") else {
        return word.parse::<u64>().unwrap_or(0);
    };
    let mut number: u64 = 0;
    for digit in digits.chars() {
        let digit = digit.to_digit(16).unwrap_or(0);
        number = number.wrapping_mul(16).wrapping_add(u64::from(digit));
    }
    number
}

pub(super) fn told(text: &str) -> Told<'_> {
    let mut words = text.split_whitespace();
    let name = words.next().unwrap_or("");
    (name, number(words.next()), number(words.next()))
}

pub(super) fn told_id(id: ThreadId) -> Told<'static> {
    ("id", u64::from(id.context), id.generation)
}

fn told_wake(answer: Woken) -> Told<'static> {
    match answer {
        Woken::Woken => ("woken", 0, 0),
        Woken::Already(word) => ("already", word, 0),
        Woken::Gone => ("gone", 0, 0),
        Woken::Lost(word) => ("lost", word, 0),
    }
}

fn told_move(answer: Moved) -> Told<'static> {
    match answer {
        Moved::Moved => ("moved", 0, 0),
        Moved::NoRoom(word) => ("no-room", word, 0),
        Moved::Unposted => ("unposted", 0, 0),
        Moved::Running => ("running", 0, 0),
        Moved::Alone => ("alone", 0, 0),
        Moved::Lost(word) => ("lost", word, 0),
    }
}

impl<'a, C: Contexts<TagOnly>, R: Wait> Bench<'a, C, R> {
    fn post(&self, seat: &mut C::Seat, core: u8, tag: u64) -> Option<Told<'static>>
        requires seat { C.sits self.now.table.now seat.old }
        requires out { (outs : List (Out C.Claim C.Hold)) × C.has self.now.table.now seat.old outs }
        requires core { core < self.now.cores }
        ensures { IfSome result (λ _. C.sits self.now.table.now seat.new × KeepsOut (C.has self.now.table.now) seat.old seat.new) }
    {
        let Claimed::Place(claim) = self.table.claim(self.rt, seat, core).ok()? else {
            return None;
        };
        let id = self.table.post(self.rt, seat, claim, TagOnly(tag)).ok()?;
        Some(told_id(id))
    }

    /// Claims two slots, puts a thread into the second, and gives the first slot back.
    fn post_second(&self, seat: &mut C::Seat, core: u8, tag: u64) -> Option<Told<'static>>
        requires seat { C.sits self.now.table.now seat.old }
        requires out { (outs : List (Out C.Claim C.Hold)) × C.has self.now.table.now seat.old outs }
        requires core { core < self.now.cores }
        ensures { IfSome result (λ _. C.sits self.now.table.now seat.new × KeepsOut (C.has self.now.table.now) seat.old seat.new) }
    {
        let Claimed::Place(claim) = self.table.claim(self.rt, seat, core).ok()? else {
            return None;
        };
        let id = self.post(seat, core, tag)?;
        self.table.give_back(self.rt, seat, claim).ok()?;
        Some(id)
    }

    /// Returns the id of the last thread that it has put there.
    fn fill(&self, seat: &mut C::Seat, core: u8) -> Option<Told<'static>>
        requires seat { C.sits self.now.table.now seat.old }
        requires out { (outs : List (Out C.Claim C.Hold)) × C.has self.now.table.now seat.old outs }
        requires core { core < self.now.cores }
        ensures { IfSome result (λ _. C.sits self.now.table.now seat.new × KeepsOut (C.has self.now.table.now) seat.old seat.new) }
    {
        for tag in 1..self.slots {
            self.post(seat, core, u64::from(tag))?;
        }
        self.post(seat, core, u64::from(self.slots))
    }

    /// Makes a call that names a core, or returns `None` if there is no such core or call.
    ///
    /// `move` moves the thread of a slot of core 0 or 1 to the other of these two cores.
    fn at_core(&self, seat: &mut C::Seat, call: Told<'_>) -> Option<Told<'static>>
        requires seat { C.sits self.now.table.now seat.old }
        requires out { (outs : List (Out C.Claim C.Hold)) × C.has self.now.table.now seat.old outs }
        ensures { IfSome result (λ _. C.sits self.now.table.now seat.new × KeepsOut (C.has self.now.table.now) seat.old seat.new) }
    {
        let (table, rt, tag) = (self.table, self.rt, call.2);
        let (core, index) = (u8::try_from(call.1).ok()?, u8::try_from(call.2).ok()?);
        if core >= self.cores {
            return None;
        }
        match call.0 {
            "look" => Some(("word", table.look(rt, seat, core), 0)),
            "close" => Some(("word", table.close_core(rt, seat, core), 0)),
            "open" => Some(("word", table.open_core(rt, seat, core), 0)),
            "drained" => Some(("drained", u64::from(table.is_drained(rt, seat, core)), 0)),
            "move" if core < 2 && self.cores > 1 && index < self.slots => {
                let place = Place { core, index };
                Some(told_move(table.move_one(rt, seat, place, 1 - core)))
            }
            "post" => self.post(seat, core, tag),
            "second" => self.post_second(seat, core, tag),
            "fill" => self.fill(seat, core),
            _ => None,
        }
    }

    /// Returns `None` if there is no such call, core or context, or if no slot was claimed.
    pub(super) fn answered(&self, seat: &mut C::Seat, call: Told<'_>) -> Option<Told<'static>>
        requires seat { C.sits self.now.table.now seat.old }
        requires out { (outs : List (Out C.Claim C.Hold)) × C.has self.now.table.now seat.old outs }
        ensures { IfSome result (λ _. C.sits self.now.table.now seat.new × KeepsOut (C.has self.now.table.now) seat.old seat.new) }
    {
        let (context, generation) = (u32::try_from(call.1).ok()?, call.2);
        match call.0 {
            "out" => Some(("out", u64::from(self.table.out(seat)), 0)),
            "mark" if context < u32::from(self.cores) * u32::from(self.slots) => {
                Some(("word", self.table.look_mark(self.rt, seat, context), 0))
            }
            "wake" => {
                let id = ThreadId {
                    context,
                    generation,
                };
                Some(told_wake(self.table.wake(self.rt, seat, id)))
            }
            _ => self.at_core(seat, call),
        }
    }
}
