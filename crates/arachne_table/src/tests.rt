//! Tests of the context tables by public calls. Each type of table must give the same results in each test case.
ghost use Rattle.std.specs.Prelude.{◌≡◌};

mod carriers;
mod contention;
mod rows;
mod sizes;
mod steps;

use crate::{Contexts, LockedContexts, Seats, Tagged, WordContexts};
use std::alloc::Global;
use std::sync::Wait;
use std::test::Fail;

#[derive(Debug, Drop)]
struct TagOnly(u64);

impl Tagged for TagOnly {
    ghost tag_of = { λ job. job.0 };

    fn tag(&self) -> u64 {
        self.0
    }
}

#[derive(Drop)]
struct Bench<'a, C: Seats, R> {
    rt: &'a R,
    table: &'a C,
    cores: u8,
    slots: u8,
    ghost counted: { C.core_count table.now ≡ cores },
    ghost placed: { C.slot_count table.now ≡ slots },
}

fn holds<C: Contexts<TagOnly> + Drop, R: Wait>(rt: &R, alloc: Global) -> Result<(), Fail> {
    rows::give::<C, R>(rt, alloc)?;
    sizes::fill_tables::<C, R>(rt, alloc)?;
    sizes::make_tables::<C>(alloc)?;
    sizes::spend_core::<C, R>(rt, alloc)
}

#[test]
fn a_table_behind_a_lock_gives_each_row(rt: HostRuntime) -> Result<(), Fail> {
    holds::<LockedContexts<TagOnly>, HostRuntime>(&rt, rt.alloc())
}

#[test]
fn a_table_of_words_gives_each_row(rt: HostRuntime) -> Result<(), Fail> {
    holds::<WordContexts<TagOnly>, HostRuntime>(&rt, rt.alloc())
}
