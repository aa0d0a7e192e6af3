//! Memory of ended threads, which a worker keeps for new threads.
use crate::parts::SpareBoxes;
use crate::slice::RunSpares;
use crate::ties::SpareTies;
use crate::wanted::Wanted;
use arachne_join::SpareCells;
use arachne_machine::{DetachedOutcome, Spares as SpareThreads};
use std::alloc::Global;

/// A worker's store of memory for new threads, so that most forks allocate memory only for a long name.
#[derive(Drop)]
pub struct JobSpares<'p> {
    pub(crate) threads: SpareThreads<'p>,
    pub(crate) ties: SpareTies,
    pub(crate) cells: SpareCells<DetachedOutcome, Wanted>,
    pub(crate) boxes: SpareBoxes<'p>,
}

impl<'p> RunSpares for JobSpares<'p> {
    fn none(alloc: Global) -> JobSpares<'p> {
        JobSpares {
            threads: SpareThreads::new(alloc),
            ties: SpareTies {
                ties: Vec::new(alloc),
            },
            cells: SpareCells::new(alloc),
            boxes: SpareBoxes {
                boxes: Vec::new(alloc),
            },
        }
    }
}
