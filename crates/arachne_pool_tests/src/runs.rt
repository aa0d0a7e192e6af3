//! Tests of `Pool::run`, which runs a job to its end, over the table on atomic words.
use crate::board::Board;
use crate::tasks::Task;
use arachne_pool::{Pool, PoolFault, Tally, Unfinished};
use arachne_shortage::Hoard;
use std::alloc::Global;
use std::sync::Wait;
use std::test::Fail;
use std::thread::Threads;
use std::time::Clock;

#[derive(Clone, Copy, PartialEq)]
enum Comes {
    /// The job's result, which is a number of jobs.
    Ends(u64),
    NotSpawned(PoolFault),
    Stopped(PoolFault, usize),
    Lost(PoolFault),
}

#[derive(Clone, Copy)]
struct Row {
    shows: &'static str,
    cores: u8,
    sort: &'static str,
    free: Option<usize>,
    comes: Comes,
}

const TREE_ON_TWO: Row = Row {
    shows: "a tree ends on two kernel threads",
    cores: 2,
    sort: "tree",
    free: None,
    comes: Comes::Ends(121),
};

const ROWS: &[Row] = &[
    Row {
        shows: "a job is returned if a kernel thread is refused",
        sort: "parent",
        free: Some(700_000),
        comes: Comes::NotSpawned(PoolFault::KernelThread),
        ..TREE_ON_TWO
    },
    Row {
        shows: "a tree ends on one kernel thread",
        cores: 1,
        ..TREE_ON_TWO
    },
    TREE_ON_TWO,
    Row {
        shows: "a tree ends on more kernel threads than there are processors",
        cores: 16,
        ..TREE_ON_TWO
    },
    Row {
        shows: "a child that wants a core for itself ends on the second kernel thread",
        sort: "alone parent",
        comes: Comes::Ends(2),
        ..TREE_ON_TWO
    },
];

/// Returns how the test case's run ended, or `None` if there is no memory for the test itself.
fn run<R: Threads + Wait + Clock + Sync>(rt: &R, alloc: Global, row: &Row) -> Option<Comes> {
    let board = Board::new(alloc)?;
    let task = Task::of(row.sort, &board)?;
    if row.cores < 1 || row.cores > 64 {
        return None;
    }
    let mut hoard = None;
    if let Some(free) = row.free {
        let mut all = Hoard::take(alloc).ok()?;
        all.give_back(free);
        hoard = Some(all);
    }
    let run = Pool::run_on(rt, alloc, row.cores, task);
    drop(hoard);
    match run {
        Ok(done) => {
            let counted = Tally {
                spawned: done.output,
                ended: done.output,
            };
            (done.tally == counted).then_some(Comes::Ends(done.output))
        }
        Err(Unfinished::NotSpawned(why, _)) => Some(Comes::NotSpawned(why)),
        Err(Unfinished::Stopped(why, _, left)) => Some(Comes::Stopped(why, left.placed.len())),
        Err(Unfinished::Lost(why)) => Some(Comes::Lost(why)),
    }
}

#[test]
fn each_job_is_run_to_its_end_or_returned(rt: HostRuntime) -> Result<(), Fail> {
    for row in ROWS {
        let comes = run(&rt, rt.alloc(), row);
        assert!(rt; comes == Some(row.comes), "{}", row.shows);
    }
    Ok(())
}

const FORKING: Row = Row {
    shows: "memory ends before the job is spawned, as it forks, or as the jobs are collected",
    cores: 1,
    sort: "alone parent forks=4294967295",
    free: None,
    comes: Comes::Stopped(PoolFault::Memory, 1),
};

#[test]
fn a_job_is_returned_wherever_memory_ends(rt: HostRuntime) -> Result<(), Fail> {
    let (mut is_unspawned, mut is_stopped) = (false, false);
    for step in 0..40usize {
        let free = Some(step * 20_000);
        match run(&rt, rt.alloc(), &Row { free, ..FORKING }) {
            Some(Comes::NotSpawned(PoolFault::Memory)) => is_unspawned = true,
            Some(Comes::Stopped(PoolFault::Memory, 1)) => is_stopped = true,
            Some(Comes::Lost(PoolFault::Memory)) => {}
            _ => return Err(FORKING.shows.into()),
        }
    }
    assert!(rt; is_unspawned && is_stopped, "{is_unspawned} {is_stopped}");
    Ok(())
}
