//! Test cases for both types of table: sequences of calls, each with its expected result.
ghost use Rattle.std.specs.Prelude.{[], ◌∷◌, IfOk, IfSome, List};
ghost use Rattle.arachne_contexts.specs.Out.{Out, KeepsOut, Claim as a_claim, Thread as a_thread};

use super::steps::{Told, told, told_id};
use super::{Bench, TagOnly};
use crate::{Claimed, Contexts, Held, Placed, Rested, Taken};
use arachne_core::{CORES, LAST_GENERATION, Rest, SLOTS, ThreadId};
use std::alloc::Global;
use std::sync::Wait;
use std::test::Fail;

/// The calls that must still be made, each with its expected result, for example `look 0 = word 0x0 | out = out 0`.
#[derive(Drop)]
struct Calls<'r>(&'r str);

impl<'r> Calls<'r> {
    fn next(&mut self) -> Option<(Told<'r>, Told<'r>)> {
        if self.0.is_empty() {
            return None;
        }
        let (call, rest) = self.0.split_once('|').unwrap_or((self.0, ""));
        self.0 = rest;
        let (call, answer) = call.split_once('=').unwrap_or((call, ""));
        Some((told(call), told(answer)))
    }
}

fn same(expected: Told<'_>, shown: Told<'_>) -> Result<(), Fail> {
    let ((told, one, other), (word, first, second)) = (expected, shown);
    if told == word && one == first && other == second {
        return Ok(());
    }
    Err(Fail::new(format_args!(
        "{told} {one:#x} {other:#x}, and not {word} {first:#x} {second:#x}"
    )))
}

impl<'a, C: Contexts<TagOnly>, R: Wait> Bench<'a, C, R> {
    /// Makes the next calls, and returns the first one that changes which claims and threads the seat has.
    ///
    /// That call is not made, and is returned with its expected result.
    fn go_on<'r>(
        &self,
        seat: &mut C::Seat,
        calls: &mut Calls<'r>,
    ) -> Result<Option<(Told<'r>, Told<'r>)>, Fail>
        requires seat { C.sits self.now.table.now seat.old }
        requires out { (outs : List (Out C.Claim C.Hold)) × C.has self.now.table.now seat.old outs }
        ensures { IfOk result (λ _. C.sits self.now.table.now seat.new × KeepsOut (C.has self.now.table.now) seat.old seat.new) }
    {
        for _ in 0..calls.0.len() {
            let Some((call, answer)) = calls.next() else {
                return Ok(None);
            };
            if let "claim"
            | "whole"
            | "take"
            | "back"
            | "put"
            | "end"
            | "block"
            | "ready" = call.0
            {
                return Ok(Some((call, answer)));
            }
            let shown = self.answered(seat, call).ok_or("no such call")?;
            same(answer, shown)?;
        }
        Ok(None)
    }

    /// Puts a thread into the claimed slot if `call` is `put`, else gives it back.
    fn spend_claim(
        &self,
        seat: &mut C::Seat,
        claim: C::Claim,
        call: Told<'_>,
    ) -> Option<Told<'static>>
        requires seat { C.sits self.now.table.now seat.old }
        requires out { C.has self.now.table.now seat.old (a_claim claim ∷ []) }
        ensures { IfSome result (λ _. C.sits self.now.table.now seat.new × C.idle self.now.table.now seat.new) }
    {
        let ("put", tag, _) = call else {
            self.table.give_back(self.rt, seat, claim).ok()?;
            return Some(("back", 0, 0));
        };
        let id = self.table.post(self.rt, seat, claim, TagOnly(tag)).ok()?;
        Some(told_id(id))
    }

    /// Claims a slot of a core, or the whole core if the call is `whole`, and makes the calls up to the one that uses
    /// the claim.
    fn with_claim(
        &self,
        seat: &mut C::Seat,
        call: Told<'_>,
        answer: Told<'_>,
        calls: &mut Calls<'_>,
    ) -> Result<(), Fail>
        requires seat { C.sits self.now.table.now seat.old × C.idle self.now.table.now seat.old }
        ensures { IfOk result (λ _. C.sits self.now.table.now seat.new × C.idle self.now.table.now seat.new) }
    {
        let core = u8::try_from(call.1).ok().ok_or("no such core")?;
        if core >= self.cores {
            return Err("no such core".into());
        }
        let claimed = match call.0 {
            "whole" => self.table.claim_alone(self.rt, seat, core)?,
            _ => self.table.claim(self.rt, seat, core)?,
        };
        let claim = match claimed {
            Claimed::Place(claim) => claim,
            Claimed::Full(word) => return same(answer, ("full", word, 0)),
            Claimed::Closed(word) => return same(answer, ("closed", word, 0)),
            Claimed::Lost(word) => return same(answer, ("lost", word, 0)),
        };
        let place = claim.place();
        same(answer, ("place", place.core.into(), place.index.into()))?;
        let (call, answer) = self.go_on(seat, calls)?.ok_or("not spent")?;
        let spent = self.spend_claim(seat, claim, call).ok_or("not spent")?;
        same(answer, spent)
    }

    /// Puts the thread back if `call` is `ready` or `block`, else ends it.
    fn spend_thread(
        &self,
        seat: &mut C::Seat,
        held: Held<TagOnly, C::Hold>,
        call: Told<'_>,
    ) -> Option<Told<'static>>
        requires seat { C.sits self.now.table.now seat.old }
        requires out { C.has self.now.table.now seat.old (a_thread held.hold held.value.0 ∷ []) }
        ensures { IfSome result (λ _. C.sits self.now.table.now seat.new × C.idle self.now.table.now seat.new) }
    {
        let rest = match call.0 {
            "ready" => Rest::Ready,
            "block" => Rest::Blocked,
            _ => {
                let job = self.table.finish(self.rt, seat, held).ok()?;
                return Some(("tag", job.0, 0));
            }
        };
        match self.table.put_back(self.rt, seat, held, rest).ok()? {
            Rested::AsAsked => Some(("as-asked", 0, 0)),
            Rested::WokenMeanwhile => Some(("woken-meanwhile", 0, 0)),
        }
    }

    fn with_thread(
        &self,
        seat: &mut C::Seat,
        call: Told<'_>,
        answer: Told<'_>,
        calls: &mut Calls<'_>,
    ) -> Result<(), Fail>
        requires seat { C.sits self.now.table.now seat.old × C.idle self.now.table.now seat.old }
        ensures { IfOk result (λ _. C.sits self.now.table.now seat.new × C.idle self.now.table.now seat.new) }
    {
        let core = u8::try_from(call.1).ok().ok_or("no such core")?;
        let index = u8::try_from(call.2).ok().ok_or("no such place")?;
        if core >= self.cores || index >= self.slots {
            return Err("no such place".into());
        }
        let Taken::Run(held) = self.table.take(self.rt, seat, core, index) else {
            return Err("not ready".into());
        };
        same(answer, told_id(held.id()))?;
        let (call, answer) = self.go_on(seat, calls)?.ok_or("not spent")?;
        let spent = self.spend_thread(seat, held, call).ok_or("not spent")?;
        same(answer, spent)
    }

    fn go_through(&self, seat: &mut C::Seat, calls: &mut Calls<'_>) -> Result<(), Fail>
        requires seat { C.sits self.now.table.now seat.old × C.idle self.now.table.now seat.old }
        ensures { IfOk result (λ _. C.sits self.now.table.now seat.new × C.idle self.now.table.now seat.new) }
    {
        for _ in 0..calls.0.len() {
            let Some((call, answer)) = self.go_on(seat, calls)? else {
                break;
            };
            match call.0 {
                "claim" | "whole" => self.with_claim(seat, call, answer, calls)?,
                "take" => self.with_thread(seat, call, answer, calls)?,
                _ => return Err("nothing to spend".into()),
            }
        }
        Ok(())
    }
}

/// Splits the seat, joins both halves, and closes the table.
fn close<C: Contexts<TagOnly> + Drop, R: Wait>(
    rt: &R,
    alloc: Global,
    table: C,
    seat: C::Seat,
) -> Option<Vec<(ThreadId, TagOnly)>>
    requires { C.sits table seat × C.idle table seat }
{
    let (first, second) = table.split(rt, seat);
    if table.is_whole(&first) {
        return None;
    }
    let seat = table.join_seats(rt, second, first);
    if !table.is_whole(&seat) {
        return None;
    }
    table.close(rt, alloc, seat).ok()
}

/// Runs a test case on a new table, and returns the threads that are left when the table is closed.
///
/// The first call of the case is `new`, with the numbers of cores and of slots per core. The result after it is the
/// generation (count of ended threads) with which each context begins.
pub(super) fn follow<C: Contexts<TagOnly> + Drop, R: Wait>(
    rt: &R,
    alloc: Global,
    row: &str,
) -> Result<Vec<(ThreadId, TagOnly)>, Fail> {
    let mut calls = Calls(row);
    let ((_, cores, slots), (_, first_generation, _)) = calls.next().ok_or("no table")?;
    let cores = u8::try_from(cores).unwrap_or(0);
    let slots = u8::try_from(slots).unwrap_or(0);
    let are_sizes = cores > 0 && cores <= CORES && slots > 0 && slots <= SLOTS;
    if !are_sizes || first_generation > LAST_GENERATION {
        return Err("no such table".into());
    }
    let (table, mut seat) = C::new(alloc, cores, slots, first_generation)?;
    let bench = Bench {
        rt,
        table: &table,
        cores,
        slots,
    };
    bench.go_through(&mut seat, &mut calls)?;
    Ok(close(rt, alloc, table, seat).ok_or("not closed")?)
}

const ROWS: &[&str] = &[
    // A core of three slots is full with three threads.
    "new 1 3 | fill 0 = id 2 0 | look 0 = word 0x300000000000007 | claim 0 = full 0x300000000000007",
    // A claim takes the lowest free slot.
    "new 1 56 | claim 0 = place 0 0 | look 0 = word 0x100000000000001 | put 5 = id 0 0 | post 0 6 = id 1 0 \
    | post 0 7 = id 2 0 | take 0 1 = id 1 0 | end = tag 6 | look 0 = word 0x200000000000005 | claim 0 = place 0 1 \
    | look 0 = word 0x300000000000007 | out = out 1 | back = back",
    // A slot whose claim was given back is free.
    "new 1 56 | claim 0 = place 0 0 | second 0 3 = id 2 0 | look 0 = word 0x200000000000005 | put 5 = id 0 0 \
    | claim 0 = place 0 1 | look 0 = word 0x300000000000007 | back = back",
    // One core is closed, another is full.
    "new 2 56 | close 0 = word 0x0 | drained 0 = drained 1 | claim 0 = closed 0x4000000000000000 \
    | open 0 = word 0x4000000000000000 | drained 0 = drained 0 | claim 0 = place 0 0 | back = back \
    | look 0 = word 0x0 | fill 0 = id 55 0 | claim 0 = full 0x38ffffffffffffff",
    // A core is claimed for one thread.
    "new 2 56 | whole 0 = place 0 0 | put 3 = id 0 0 | look 0 = word 0x8100000000000001 | mark 0 = word 0x9 \
    | claim 0 = full 0x8100000000000001 | post 1 4 = id 56 0 | whole 1 = full 0x100000000000001 \
    | look 1 = word 0x100000000000001",
    // A thread is woken while the seat holds it. After the thread has ended, a call with its id finds no thread.
    "new 1 56 | post 0 3 = id 0 0 | mark 0 = word 0x1 | take 0 0 = id 0 0 | mark 0 = word 0x3 | wake 0 0 = woken \
    | mark 0 = word 0x4 | block = woken-meanwhile | mark 0 = word 0x1 | wake 0 0 = already 0x1 | mark 0 = word 0x1 \
    | take 0 0 = id 0 0 | end = tag 3 | mark 0 = word 0x10000 | look 0 = word 0x0 | wake 0 0 = gone \
    | mark 0 = word 0x10000 | look 0 = word 0x0 | post 0 4 = id 0 1 | mark 0 = word 0x10001 | wake 0 0 = gone \
    | mark 0 = word 0x10001",
    // A context whose last generation is used up takes no more threads.
    "new 1 56 = from 281474976710655 | post 0 3 = id 0 281474976710655 | mark 0 = word 0xffffffffffff0001 \
    | take 0 0 = id 0 281474976710655 | end = tag 3 | mark 0 = word 0xffffffffffff0005 \
    | look 0 = word 0x100000000000001 | wake 0 281474976710655 = gone | claim 0 = place 0 1 | back = back",
    // A thread that the seat holds is not moved, nor is a thread that has its core for itself. A thread is put back as
    // ready.
    "new 2 56 | post 0 3 = id 0 0 | take 0 0 = id 0 0 | out = out 1 | move 0 0 = running | mark 0 = word 0x3 \
    | ready = as-asked | mark 0 = word 0x1 | whole 1 = place 1 0 | put 4 = id 56 0 | move 1 0 = alone \
    | move 0 0 = no-room 0x8100000000000001 | mark 56 = word 0x409 | look 1 = word 0x8100000000000001",
    // A core is drained if it is closed and empty.
    "new 2 56 | post 1 5 = id 56 0 | post 1 6 = id 57 0 | take 1 1 = id 57 0 | block = as-asked \
    | claim 1 = place 1 2 | close 1 = word 0x300000000000007 | look 1 = word 0x4300000000000007 | move 1 0 = moved \
    | move 1 1 = moved | move 1 2 = unposted | look 1 = word 0x4100000000000004 | look 0 = word 0x200000000000003 \
    | mark 56 = word 0x1 | mark 57 = word 0x12 | mark 0 = word 0x400 | mark 1 = word 0x410 | wake 57 0 = woken \
    | put 7 = id 58 0 | mark 56 = word 0x1 | mark 57 = word 0x11 | mark 0 = word 0x400 | mark 1 = word 0x410 \
    | mark 58 = word 0x421 | move 1 2 = moved | look 0 = word 0x300000000000007 | look 1 = word 0x4000000000000000 \
    | drained 1 = drained 1",
    // A thread is moved to another core and back.
    "new 2 56 | post 1 5 = id 56 0 | move 1 0 = moved | mark 56 = word 0x1 | mark 0 = word 0x400 | move 0 0 = moved \
    | mark 56 = word 0x401 | mark 0 = word 0x0 | look 0 = word 0x0 | look 1 = word 0x100000000000001 \
    | close 0 = word 0x0 | move 1 0 = no-room 0x4000000000000000 | take 1 0 = id 56 0 | end = tag 5",
    // A thread whose context doesn't exist is reported as gone.
    "new 1 56 | wake 56 0 = gone",
];

/// `close` must return the thread in context 0 first.
const LEFT: &str =
    "new 2 56 | post 1 5 = id 56 0 | post 0 6 = id 0 0 | post 1 7 = id 57 0 | take 1 0 = id 56 0 | end = tag 5";

pub(super) fn give<C: Contexts<TagOnly> + Drop, R: Wait>(
    rt: &R,
    alloc: Global,
) -> Result<(), Fail> {
    for row in ROWS {
        follow::<C, R>(rt, alloc, row)?;
    }
    let left = follow::<C, R>(rt, alloc, LEFT)?;
    let [(first, six), (second, seven)] = left.as_slice() else {
        return Err("not two threads are left".into());
    };
    same(("tag", six.0, seven.0), ("tag", 6, 7))?;
    same(told_id(*first), ("id", 0, 0))?;
    same(told_id(*second), ("id", 57, 0))
}
