//! The memory of a test's run. It is ample, or none is free when a call begins, and the test repeats the call with a
//! little more memory each time.
use super::first_wrong;
use arachne_shortage::Hoard;
use std::alloc::Global;

/// The number of bytes that the test frees after a list could not grow: so few that the next growth is refused too.
const FEW: usize = 40;

/// A number of bytes that is enough for any one growth of a list.
const MANY: usize = 20_000;

#[derive(Drop)]
pub(super) struct Memory {
    hoard: Option<Hoard>,
    refused: u64,
    lately: bool,
}

impl Memory {
    pub(super) fn ample() -> Memory {
        Memory {
            hoard: None,
            refused: 0,
            lately: false,
        }
    }

    /// Takes all memory that the process can get.
    ///
    /// Returns `None` if even that needs more memory.
    pub(super) fn use_up(&mut self, alloc: Global) -> Option<()> {
        self.hoard = Some(Hoard::take(alloc).ok()?);
        Some(())
    }

    pub(super) fn give_all_back(&mut self) {
        self.hoard = None;
    }

    fn give_back(&mut self, bytes: usize) {
        self.refused = self.refused.wrapping_add(1);
        self.lately = true;
        if let Some(hoard) = &mut self.hoard {
            hoard.give_back(bytes);
        }
    }

    /// Frees a little memory after a refusal.
    pub(super) fn spare(&mut self) {
        self.give_back(FEW);
    }

    /// Frees enough memory for one list to grow.
    pub(super) fn spare_much(&mut self) {
        self.give_back(MANY);
    }

    /// Takes again the memory that was freed, unless memory was refused in the last call.
    pub(super) fn begin_call(&mut self) -> Option<()> {
        if self.lately {
            self.lately = false;
            return Some(());
        }
        self.take_again()
    }

    pub(super) fn take_again(&mut self) -> Option<()> {
        if let Some(hoard) = &mut self.hoard {
            hoard.take_again().ok()?;
        }
        Some(())
    }

    pub(super) fn refused(&self) -> u64 {
        self.refused
    }
}

#[test]
fn refused_calls_are_made_again(rt: HostRuntime) {
    assert!(rt; first_wrong(rt.alloc(), true) == None);
}
