//! A child that waits for a slot, and whose job is refused memory, must go on waiting until there is enough memory.
ghost use Rattle.arachne_lang.specs.Checked.{IsChecked};
ghost use Rattle.arachne_lang.specs.Program.{source_of};

use super::cores::FORK;
use super::rows::{ROW, Row, program_of};
use arachne_core::ThreadId;
use arachne_jobs::{Job, JobOf, JobSpares, Openings, Room, RunJob, RunSpares, Slice};
use arachne_lang::Program;
use arachne_shortage::Hoard;
use std::alloc::Global;
use std::test::Fail;

const STEPS: u32 = 100;

const SLICES: usize = 10;

/// Numbers of bytes of free memory for the child's job: the first is too small, and the last is enough.
const LEFT: &[usize] = &[
    0, 40, 80, 120, 160, 200, 240, 320, 400, 480, 560, 640, 720, 800, 1_600, 100_000,
];

/// Returns `None` if the job doesn't end within `SLICES` slices.
fn ends<'p>(
    job: &mut Job<'p>,
    spares: &mut JobSpares<'p>,
    room: &Room,
    openings: &mut Openings,
) -> Option<()> {
    for _ in 0..SLICES {
        let mut left = STEPS;
        match job.slice(&mut left, spares, room, openings) {
            Ok(Slice::Goes) => {}
            Ok(Slice::Ends) => return Some(()),
            _ => return None,
        }
    }
    None
}

/// Runs the root until its child waits for a slot, and tries to create the child's job with `bytes` bytes of free
/// memory.
///
/// Returns true if memory was refused, or `None` if the two threads don't end after that.
fn is_refused(alloc: Global, program: &Program, bytes: usize) -> Option<bool>
    requires { IsChecked (source_of program.now) }
{
    let (room, mut openings) = (Room::new(1, 1, 1), Openings::new());
    let mut spares = JobSpares::none(alloc);
    let (mut root, _receiver) = Job::begin(alloc, program, &mut spares).ok()?;
    let me = ThreadId {
        context: 0,
        generation: 0,
    };
    let mut left = STEPS;
    let ticket = match root.slice(&mut left, &mut spares, &room, &mut openings) {
        Ok(Slice::Forks(_, child)) => root.put_aside(alloc, me, child, 1, true).ok()??,
        _ => return None,
    };
    let mut hoard = Hoard::take(alloc).ok()?;
    hoard.give_back(bytes);
    let job = Job::of_ticket(alloc, ticket, &mut spares);
    drop(hoard);
    let is_refused = job.is_none();
    if let Some(mut child) = job {
        ends(&mut child, &mut spares, &room, &mut openings)?;
        child.leave(&mut spares).ok()?;
    }
    ends(&mut root, &mut spares, &room, &mut openings)?;
    Some(is_refused)
}

#[test]
fn a_child_waits_on_if_its_job_is_refused_memory(rt: HostRuntime) -> Result<(), Fail> {
    let alloc = rt.alloc();
    let row = Row { expr: FORK, ..ROW };
    let program = program_of(alloc, &row)?;
    for (nth, &bytes) in LEFT.iter().enumerate() {
        let refused = is_refused(alloc, &program, bytes);
        let is_so = match refused {
            Some(true) => nth + 1 < LEFT.len(),
            Some(false) => nth > 0,
            None => false,
        };
        assert!(rt; is_so, "{bytes}: {refused:?}");
    }
    Ok(())
}
