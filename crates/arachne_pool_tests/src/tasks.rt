//! The jobs of all tests. A job's result counts the job and all jobs that it has joined, directly or through others.
use crate::board::Board;
use arachne_contexts::Tagged;
use arachne_core::ThreadId;
use arachne_pool::{PoolJob, Step};
use std::alloc::Global;
use std::mem::replace;
use std::sync::Arc;

#[derive(Clone, Copy)]
struct Sort {
    depth: u32,
    forks: u32,
    /// The number of answers (events) for which the job sleeps after it has joined its children; each child sleeps for
    /// one fewer.
    answers: u64,
    /// The number of steps that the job makes before each fork, and again before it ends.
    steps: u32,
    bound: u32,
    /// The number of values that the job has only so that it takes time to drop it.
    luggage: usize,
    joins: Joins,
    is_exclusive: bool,
    is_first_exclusive: bool,
    /// True if the job's first step lasts until an answer (an event of the test) was counted.
    is_held: bool,
}

#[derive(Clone, Copy)]
enum Joins {
    InTurn,
    AtLast,
    Never,
}

const LEAF: Sort = Sort {
    depth: 0,
    forks: 0,
    answers: 0,
    steps: 0,
    bound: 1,
    luggage: 0,
    joins: Joins::AtLast,
    is_exclusive: false,
    is_first_exclusive: false,
    is_held: false,
};

impl Sort {
    /// Parses a sort of job, which `text` describes by how it differs from a leaf (a job of one step), for example
    /// `alone forks=2 never`.
    ///
    /// A `parent` forks one child, a leaf, and joins it. A `tree` forks three children, each of which does the same,
    /// four generations deep: 121 jobs. A job that is `endless` runs longer than any test. Returns `None` if the text
    /// has another word.
    fn of(text: &str) -> Option<Sort> {
        let mut sort = LEAF;
        for word in text.split_whitespace() {
            let (name, number) = word.split_once('=').unwrap_or((word, "0"));
            let number = number.parse::<u32>().ok()?;
            match name {
                "leaf" => {}
                "parent" => (sort.depth, sort.forks) = (1, 1),
                "tree" => (sort.depth, sort.forks) = (4, 3),
                "endless" => sort.steps = u32::MAX,
                "depth" => sort.depth = number,
                "forks" => sort.forks = number,
                "answers" => sort.answers = u64::from(number),
                "steps" => sort.steps = number,
                "bound" => sort.bound = number,
                "luggage" => sort.luggage = number as usize,
                "in-turn" => sort.joins = Joins::InTurn,
                "never" => sort.joins = Joins::Never,
                "alone" => sort.is_exclusive = true,
                "first-alone" => sort.is_first_exclusive = true,
                "held" => sort.is_held = true,
                _ => return None,
            }
        }
        Some(sort)
    }

    /// Returns the sort of a child of such a job, or `None` if the job has no children.
    fn of_child(self, is_first: bool) -> Option<Sort> {
        Some(Sort {
            depth: self.depth.checked_sub(1)?,
            answers: self.answers.saturating_sub(1),
            is_exclusive: self.is_exclusive || self.is_first_exclusive && is_first,
            ..self
        })
    }
}

/// Counts the children that it has forked and not joined, the steps since its last fork, and the jobs that it has
/// joined, itself included.
#[derive(Drop)]
pub(crate) struct Task {
    board: Arc<Board>,
    luggage: Vec<Vec<u64>>,
    sort: Sort,
    has_begun: bool,
    forked: u32,
    awaited: u32,
    steps: u32,
    counted: u64,
}

impl Task {
    /// Returns `None` if memory is refused, the board has too many owners, or `sort` isn't the text of one.
    pub(crate) fn of(sort: &str, board: &Arc<Board>) -> Option<Task> {
        Task::new(Sort::of(sort)?, board)
    }

    fn new(sort: Sort, board: &Arc<Board>) -> Option<Task> {
        Some(Task {
            board: board.clone().ok()?,
            luggage: luggage(board.alloc, sort.luggage)?,
            sort,
            has_begun: false,
            forked: 0,
            awaited: 0,
            steps: 0,
            counted: 1,
        })
    }

    fn child(&mut self) -> Option<Task> {
        if self.forked >= self.sort.forks {
            return None;
        }
        let sort = self.sort.of_child(self.forked == 0)?;
        let child = Task::new(sort, &self.board)?;
        self.forked += 1;
        self.awaited = self.awaited.wrapping_add(1);
        self.steps = 0;
        Some(child)
    }

    fn is_to_join(&self) -> bool {
        match self.sort.joins {
            Joins::InTurn => self.awaited > 0,
            Joins::AtLast => self.awaited > 0 && self.forked == self.sort.forks,
            Joins::Never => false,
        }
    }
}

fn luggage(alloc: Global, count: usize) -> Option<Vec<Vec<u64>>> {
    let mut luggage = Vec::new(alloc);
    for _ in 0..count {
        luggage.push(Vec::with_capacity(alloc, 1).ok()?).ok()?;
    }
    Some(luggage)
}

impl Tagged for Task {
    ghost tag_of = { λ task. 7 };

    fn tag(&self) -> u64 {
        7
    }
}

impl PoolJob for Task {
    type Output = u64;

    ghost is_result = { λ task counted. Unit {0} };

    ghost awaits = { λ task children. Unit {0} };

    ghost most_steps = { 4294967295 };

    fn step(&mut self) -> Step<Task, u64> {
        let is_first = !replace(&mut self.has_begun, true);
        self.board.counts_step(is_first);
        if is_first && self.sort.is_held {
            self.board.await_answer();
        }
        if self.is_to_join() {
            return Step::Waits;
        }
        if self.steps < self.sort.steps {
            self.steps += 1;
            return Step::Again;
        }
        if let Some(child) = self.child() {
            return Step::Forks(child);
        }
        if self.board.answers() < self.sort.answers {
            return Step::Sleeps;
        }
        Step::Done(self.counted)
    }

    fn joined(&mut self, output: u64) {
        self.awaited = self.awaited.wrapping_sub(1);
        self.counted = self.counted.wrapping_add(output);
    }

    fn bound(&self) -> u32 {
        self.sort.bound
    }

    fn sleeps_as(&self, id: ThreadId) {
        self.board.sleeps_as(id);
    }

    fn is_exclusive(&self) -> bool {
        self.sort.is_exclusive
    }
}
