//! The trait that a type implements so that a pool can run its values as jobs.
ghost use Rattle.std.specs.Prelude.{◌≡◌, ◌≤◌, ℕ, List, [], ◌∷◌, max};
ghost use Rattle.arachne_pool.specs.Jobs.{EndsWith, ForksFresh, HasJoined, IsAwaited, KeepsChildren, KeepsResults, KnowsChildren};

use arachne_contexts::Tagged;
use arachne_core::ThreadId;

/// The result of one step of a job.
#[derive(Drop)]
pub enum Step<J, O> {
    /// The job is ready for its next step.
    Again,
    /// The job waits for the result of its newest child whose result it has not got yet. Without such a child, the job
    /// goes on at once.
    Waits,
    /// The job sleeps until `Pool::wake` is called with the id that the job got from `sleeps_as`. The pool may call
    /// `step` before that wake, so `step` must check again whether the job can go on.
    Sleeps,
    /// The job forks this child, which can run in parallel with the job.
    Forks(J),
    /// The job has ended with this result.
    Done(O),
}

/// A job, which a pool runs step by step.
///
/// Two steps of a job never overlap, but different kernel threads may make them.
pub trait PoolJob: Tagged + Drop {
    /// The type of the job's result.
    type Output: Drop;

    /// True if the value is a possible result of the job. `Handle::poll` returns only such a value.
    ghost is_result: { Self → Self.Output → Type 0 };

    /// True if the list can be the children whose results the job has not got yet, newest first, as they were forked.
    ///
    /// If an implementation makes `awaits` always true, `joined` learns only that `output` is a result of some job.
    ghost awaits: { Self → List Self → Type 0 };

    /// An upper bound of the results of `bound`. An implementation that defines `bound` must also define `most_steps`.
    ghost most_steps: { ℕ } = { 1 };

    /// Makes one step of the job. The pool doesn't call `step` again after it has returned `Done`.
    fn step(&mut self) -> Step<Self, Self::Output>
        requires goes_on { KnowsChildren awaits self.old }
        ensures tag { Self.tag_of self.new ≡ Self.tag_of self.old }
        ensures results { KeepsResults is_result self.old self.new }
        ensures children { KeepsChildren awaits result self.old self.new }
        ensures fresh { ForksFresh awaits result }
        ensures output { (children : List Self) → awaits self.old children → EndsWith (is_result self.old) result };

    /// Gives the job the result for which it has waited, that of its newest child whose result it has not got yet.
    fn joined(&mut self, output: Self::Output)
        requires { IsAwaited is_result awaits self.old output }
        ensures tag { Self.tag_of self.new ≡ Self.tag_of self.old }
        ensures results { KeepsResults is_result self.old self.new }
        ensures children { HasJoined is_result awaits output self.old self.new };

    /// Returns the largest number of steps that the job makes before the core's other jobs run. A 0 counts as 1.
    fn bound(&self) -> u32
        ensures { result ≤ max 1 most_steps }
    {
        1
    }

    /// Gives the job, which is about to sleep, the id by which `Pool::wake` wakes it. A wake that comes before the job
    /// sleeps is not lost. A child that runs inside its parent's slot gets the parent's id.
    fn sleeps_as(&self, _id: ThreadId) {}

    /// Returns true if the job should get a core for itself when a core is empty.
    fn is_exclusive(&self) -> bool {
        false
    }
}
