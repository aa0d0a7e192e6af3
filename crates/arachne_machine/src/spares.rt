//! Reuses the memory of ended threads for new ones.
use crate::contents::Contents;
use crate::state::State;
use arachne_program::Program;
use std::alloc::{AllocError, Global};
use std::marker::Model;

const MOST: usize = 64;

/// A store for the memory of ended threads and of joined outcomes, which new threads reuse.
#[derive(Drop)]
pub struct Spares<'p> {
    most: usize,
    states: Vec<Box<State<'p>>>,
    contents: Vec<Box<Contents>>,
}

impl<'p> Model for Spares<'p> {
    ghost use Rattle.std.specs.Prelude.{◌≤◌, vec_len};

    ghost Value = { Unit {0} };

    ghost view = { λ s. tt };

    ghost invariant = { λ s. (s.most ≤ 64) × (vec_len s.states ≤ 64) × (vec_len s.contents ≤ 64) };
}

impl<'p> Spares<'p> {
    /// Returns an empty store. Allocates no memory.
    pub fn new(alloc: Global) -> Spares<'p> {
        Spares {
            most: MOST,
            states: Vec::new(alloc),
            contents: Vec::new(alloc),
        }
    }

    pub(crate) fn none(alloc: Global) -> Spares<'p> {
        Spares {
            most: 0,
            states: Vec::new(alloc),
            contents: Vec::new(alloc),
        }
    }

    pub(crate) fn take(
        &mut self,
        alloc: Global,
        program: &'p Program,
    ) -> Result<Box<State<'p>>, AllocError> {
        match self.states.pop() {
            Some(state) => Ok(state),
            None => Ok(Box::new(alloc, State::vacant(alloc, program))?),
        }
    }

    /// Returns a box for an outcome, which is allocated only if the store has no box.
    #[inline(always)]
    pub fn take_contents(&mut self) -> Result<Box<Contents>, AllocError> {
        match self.contents.pop() {
            Some(contents) => Ok(contents),
            None => Contents::new(*self.contents.allocator()),
        }
    }

    /// Keeps the box of a joined outcome, or drops it if the store is full.
    #[inline(always)]
    pub fn keep_contents(&mut self, contents: Box<Contents>) {
        if self.contents.len() < self.most {
            let _ = self.contents.push(contents);
        }
    }

    #[inline(always)]
    pub(crate) fn keep(&mut self, state: Box<State<'p>>) {
        if self.states.len() < self.most {
            let _ = self.states.push(state);
        }
    }
}
