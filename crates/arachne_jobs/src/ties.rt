//! A job's ends of join cells and its parent's id, in a box that later jobs reuse.
ghost use Rattle.std.specs.Prelude.{◌≡◌, ◌≤◌, ◌+◌, [], IfOk, vec_len, vec_capacity};

use crate::ends::End;
use arachne_core::ThreadId;
use std::alloc::{AllocError, Global};
use std::marker::Model;

/// A job's ends of join cells, the newest last.
#[derive(Drop)]
pub struct Ties {
    pub(crate) ends: Vec<End>,
    pub(crate) parent: Option<ThreadId>,
}

/// The greatest number of boxes that a worker keeps.
const MOST: usize = 64;

/// The boxes of ended jobs, which new jobs reuse, and the capacity of their lists.
#[derive(Drop)]
pub struct SpareTies {
    pub(crate) ties: Vec<Box<Ties>>,
}

impl Model for SpareTies {
    ghost use Rattle.std.specs.Prelude.{◌≤◌, vec_len};

    ghost Value = { Unit {0} };

    ghost view = { λ s. tt };

    ghost invariant = { λ s. vec_len s.ties ≤ 64 };
}

impl SpareTies {
    /// Returns a box with no ends, but with room for two: the job's own, and that of a first child.
    #[inline(always)]
    pub(crate) fn take(
        &mut self,
        alloc: Global,
        parent: Option<ThreadId>,
    ) -> Result<Box<Ties>, AllocError>
        ensures none { IfOk result (λ ties. ties.value.ends.items ≡ []) }
        ensures parent { IfOk result (λ ties. ties.value.parent ≡ parent) }
        ensures room { IfOk result (λ ties. vec_len ties.value.ends + 1 ≤ vec_capacity ties.value.ends) }
    {
        let mut ties = match self.ties.pop() {
            Some(ties) => ties,
            None => Box::new(
                alloc,
                Ties {
                    ends: Vec::new(alloc),
                    parent: None,
                },
            )?,
        };
        ties.ends.clear();
        ties.ends.try_reserve(2)?;
        ties.parent = parent;
        Ok(ties)
    }

    #[inline(always)]
    pub(crate) fn keep(&mut self, ties: Box<Ties>) {
        if self.ties.len() < MOST {
            let _ = self.ties.push(ties);
        }
    }
}
