//! The results of an executor's calls.

/// A job that a seat holds. `place` is its slot, `name` is unique, and `job` is the number that its spawner passed.
#[derive(Clone, Copy, Debug, PartialEq, Eq)]
pub struct HeldJob {
    pub place: usize,
    pub name: u64,
    pub job: u64,
}

/// A job that `spawn` put into slot `place`. `name` is unique. If `unpark` is true, the caller must unpark the slot's
/// worker.
#[derive(Clone, Copy, Debug, PartialEq, Eq)]
pub struct PlacedJob {
    pub place: usize,
    pub name: u64,
    pub unpark: bool,
}

/// The result of `spawn`: the new job, or the reason why no job was spawned.
#[derive(Clone, Copy, Debug, PartialEq, Eq)]
pub enum JobSpawned {
    Placed(PlacedJob),
    /// No slot of the block was free.
    Full,
    /// Another kernel thread claimed the free slot first. The caller may try again.
    Lost,
}

/// The result of `spawn_here`: the new job, which the caller then holds, or the reason why no job was spawned.
#[derive(Clone, Copy, Debug, PartialEq, Eq)]
pub enum SpawnedHere {
    Held(HeldJob),
    /// No slot of the block was free.
    Full,
    /// Another kernel thread claimed the free slot first. The caller may try again.
    Lost,
}

/// The result of `rest_blocked`.
#[derive(Clone, Copy, Debug, PartialEq, Eq)]
pub enum JobRested {
    Blocked,
    /// The job is ready again, since a wake of it was recorded. If `unpark` is true, the caller must unpark the job's
    /// worker.
    Ready { unpark: bool },
}

/// The result of `next`, which is a worker's next action.
#[derive(Clone, Copy, Debug, PartialEq, Eq)]
pub enum Next {
    Run(HeldJob),
    /// The worker must park. `next` has marked the worker as asleep, and has then found no ready job.
    Park,
    /// `next` has taken no job, but the worker must not park before it has called `next` again.
    Again,
}

/// The result of `wake`.
#[derive(Clone, Copy, Debug, PartialEq, Eq)]
pub enum JobWoken {
    /// The job was blocked, and is ready now. If `unpark` is true, the caller must unpark the job's worker.
    Ready { unpark: bool },
    /// The job isn't blocked, so the wake is recorded until the job is taken, started or ended. Also the result for the
    /// name that a free slot's next job will get.
    Marked,
    /// The wake changed nothing, since an earlier wake of the job is still recorded.
    Already,
    /// No job has that name at present.
    Gone,
    /// Another kernel thread changed the job's state during the call. The caller may try again.
    Lost,
}

/// The result of `wake_here`.
#[derive(Clone, Copy, Debug, PartialEq, Eq)]
pub enum WokenHere {
    /// The job was blocked, and the caller holds it now.
    Held(HeldJob),
    /// The job isn't blocked, so the wake is recorded until the job is taken, started or ended. Also the result for the
    /// name that a free slot's next job will get.
    Marked,
    /// The wake changed nothing, since an earlier wake of the job is still recorded.
    Already,
    /// No job has that name at present.
    Gone,
    /// Another kernel thread changed the job's state during the call. The caller may try again.
    Lost,
}
