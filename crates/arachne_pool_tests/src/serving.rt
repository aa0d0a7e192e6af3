//! Test cases for what a server needs of a pool: sleeps and wakes, refusals, statistics, and sleeping kernel threads
//! that are woken without delay.
use crate::rounds::Row;
use crate::rows::{NOTHING, TO_THE_END};
use crate::spells::Spell;
use arachne_core::CORES;

const OFTEN: u32 = 100;

/// Test cases for sleeps and wakes.
///
/// Most of them limit, by `overslept`, the number of kernel threads' sleeps that time out although there is something
/// to do. The limit is at most `OFTEN / 4`; if all wakes of one kind were lost, about `OFTEN` sleeps would time out.
///
/// A job with `bound` equal to `steps` runs so long that a kernel thread that waits for it falls asleep.
pub(crate) const ROWS: &[Row] = &[
    Row {
        shows: "a job that sleeps has no slice until it is woken, and a late wake hits no later job at its place",
        acts: "spawn answers=1 | awake 0 0 | turns 0 1 | turns 0 0 | answer | turns 0 0 | wakes 0 0 | awake 0 0 \
            | turns 0 1 | lives 0 | nobody 0 0 | spawn answers=2 | turns 0 1 | answer | nobody 0 0 | turns 0 0 \
            | lives 1 | wakes 0 1 | turns 0 1 | lives 0",
        ..NOTHING
    },
    Row {
        shows: "a parent that is woken by the wake of a child that ran in its place looks and sleeps again",
        acts: "spawn parent answers=2 | turns 0 3 | turns 0 0 | lives 2 | answer | wakes 0 0 | turns 0 1 | lives 1 \
            | turns 0 1 | turns 0 0 | wakes 0 0 | turns 0 1 | turns 0 0 | lives 1 | answer | wakes 0 0 | turns 0 1 \
            | lives 0",
        ..NOTHING
    },
    Row {
        shows: "a job that sleeps beside a child makes a step a slice, so that the child gets a place once one is free",
        slots: 3,
        acts: "spawn answers=1 | spawn parent never answers=9 | spawn parent never answers=9 bound=4 | turns 0 1 \
            | stepped 4 | turns 0 2 | stepped 8 | open 0 3 | lives 5 | answer | wakes 0 0 | turns 0 1 | open 0 3 \
            | lives 4 | turns 0 2 | stepped 15",
        left: (3, 0),
        alive: 4,
        ..NOTHING
    },
    Row {
        shows: "a job without a place gets the one of a core that is granted, though no job has ended",
        cores: 2,
        orders: "0 release 1",
        acts: "turns 0 0 | spawn answers=1 | spawn leaf | turns 0 1 | closed 1 0 | orders 0 grant 1 | turns 0 0 \
            | turns 1 0 | turns 1 1 | lives 1",
        left: (1, 0),
        alive: 1,
        ..NOTHING
    },
    Row {
        shows: "a job comes back where each core is full, one job's alone or closed, and only there",
        cores: 3,
        orders: "0 release 2",
        acts: "turns 0 0 | try alone | try leaf | open 1 1 | no-place leaf | no-place alone | lives 2 | counts 2 \
            | turns 1 1 | try leaf | open 1 1 | turns 0 1 | turns 1 1 | lives 0 | counts 3",
        ..NOTHING
    },
    Row {
        shows: "a spawn that is refused memory leaves all as it was, and a slice and a wake take none",
        slots: 3,
        acts: "hoards | no-memory leaf | open 0 0 | lives 0 | frees | try answers=1 | hoards | turns 0 1 | answer \
            | wakes 0 0 | counts 1 | frees | works 0 | lives 0",
        ..NOTHING
    },
    Row {
        shows: "with ample memory each of many places gets a job",
        cores: CORES,
        slots: 56,
        acts: "spawns 3584 leaf | no-place leaf",
        left: (3584, 0),
        alive: 3584,
        ..NOTHING
    },
    Row {
        shows: "a job that sleeps on a core whose kernel thread does is woken at once, each time",
        cores: 2,
        acts: "spawn alone | spawn answers=100 | turns 0 1",
        spells: (Spell::Wakes(OFTEN, true), Spell::ToTheEnd),
        then: "lives 0 | overslept 0 25",
        ..NOTHING
    },
    Row {
        shows: "a wake that comes before the rest is not lost",
        cores: 2,
        acts: "spawn alone | spawn answers=200 | turns 0 1",
        spells: (Spell::Wakes(2 * OFTEN, false), Spell::ToTheEnd),
        then: "lives 0",
        ..NOTHING
    },
    Row {
        shows: "in a pool that is kept open a kernel thread that sleeps is woken by each spawn, until no more come",
        cores: 2,
        acts: "works 0 | spawn alone | keeps-open",
        spells: (Spell::Feeds(3 * OFTEN), Spell::ToTheEnd),
        then: "lives 0 | counts 301 | overslept 0 25",
        ..NOTHING
    },
    Row {
        shows: "a pool without a job is kept open, and a kernel thread that sleeps is told at once that no more come",
        cores: 2,
        spells: (Spell::Finishes(OFTEN), Spell::ToTheStop),
        then: "overslept 0 25",
        ..NOTHING
    },
    Row {
        shows: "a fork wakes the kernel thread of its core, and an end that of its parent's",
        cores: 2,
        acts: "spawn alone parent forks=100 in-turn steps=50000 bound=1000",
        spells: TO_THE_END,
        busy: 2,
        then: "lives 0 | counts 101 | overslept 0 25",
        ..NOTHING
    },
    Row {
        shows: "a job that waited for a place and gets one on another core wakes the kernel thread there",
        cores: 2,
        acts: "works 0 | spawns 1000 steps=50000 bound=50000",
        spells: TO_THE_END,
        busy: 2,
        then: "lives 0 | counts 1000 | overslept 0 5",
        ..NOTHING
    },
    Row {
        shows: "once no job lives each result is there",
        cores: 2,
        slots: 2,
        spells: (
            Spell::Polls(5 * OFTEN, "luggage=500", false),
            Spell::ToTheStop,
        ),
        then: "answered 500",
        ..NOTHING
    },
    Row {
        shows: "a round takes over a job to which the kernel thread that works for another core has not come",
        cores: 2,
        slots: 2,
        acts: "spawn alone | spawn held",
        spells: (Spell::Fetches, Spell::ToTheEnd),
        then: "answered 1 | lives 0",
        ..NOTHING
    },
    Row {
        shows: "a round takes over a job of the last core, of which the worker that has left that core tells",
        cores: CORES,
        acts: "works 63 | spawns 63 alone | spawn steps=10 | open 63 1 | turns 63 1 | turns 0 2 | open 63 0",
        left: (63, 0),
        alive: 63,
        ..NOTHING
    },
    Row {
        shows: "a round takes over a job of a core before its own",
        cores: 2,
        orders: "0 release 1",
        acts: "works 0 | turns 0 0 | spawn steps=10 | orders 0 grant 1 | turns 0 1 | turns 1 1 | open 0 0 | open 1 1",
        left: (1, 0),
        alive: 1,
        ..NOTHING
    },
    Row {
        shows: "jobs that name no core come to each of two",
        cores: 2,
        slots: 8,
        acts: "spawns 6 leaf | open 0 3 | open 1 3",
        left: (6, 0),
        alive: 6,
        ..NOTHING
    },
    Row {
        shows: "a sleep that ends by its time is counted, where a job gets a place that came free untold",
        cores: 2,
        acts: "turns 0 0 | spawn answers=1 alone | turns 0 1 | spawn steps=2000000 bound=2000000 | spawn leaf",
        spells: (Spell::ToTheEnd, Spell::WakesLast),
        then: "overslept 1 18446744073709551615 | lives 0",
        ..NOTHING
    },
    Row {
        shows: "a round takes over no job of a core for which no kernel thread works",
        cores: 2,
        orders: "0 release 1",
        acts: "turns 0 0 | spawn steps=10 | orders 0 grant 1 | turns 0 1 | turns 1 0 | open 0 1 | open 1 0 | works 0",
        then: "lives 0",
        ..NOTHING
    },
    Row {
        shows: "the last end wakes a kernel thread that sleeps, and once it returns from its work each result is there",
        cores: 2,
        slots: 2,
        spells: (
            Spell::Polls(OFTEN, "steps=50000 bound=1000", true),
            Spell::ToTheStop,
        ),
        then: "answered 100 | overslept 0 25",
        ..NOTHING
    },
];
