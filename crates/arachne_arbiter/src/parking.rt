//! Puts the kernel thread of a closed core to sleep until the core is opened again.
ghost use Rattle.std.specs.Prelude.{◌≡◌, ◌<◌, IfOk};
ghost use Rattle.arachne_arbiter.specs.KernelThreads.{parked_cores};

use crossbeam_utils::CachePadded;
use std::alloc::{AllocError, Global};
use std::sync::Wait;
use std::thread::Parker;

/// One parker for each core, on which the core's kernel thread sleeps.
///
/// A park after an unpark returns at once. So a kernel thread that first checks if it must park, and then parks, misses
/// no unpark between the two.
#[derive(Drop)]
pub struct Parking {
    parkers: Vec<CachePadded<Parker>>,
}

impl Parking {
    pub fn new(alloc: Global, cores: u8) -> Result<Parking, AllocError>
        ensures { IfOk result (λ parking. parked_cores parking ≡ cores) }
    {
        let mut parkers = Vec::with_capacity(alloc, usize::from(cores))?;
        for _ in 0..cores {
            parkers.push(CachePadded::new(Parker::new()))?;
        }
        Ok(Parking { parkers })
    }

    /// Sleeps until another thread unparks `core`. Only the kernel thread of `core` may call `park`.
    pub fn park<H: Wait>(&self, rt: &H, core: u8)
        requires { core < parked_cores self.now }
    {
        self.parkers[usize::from(core)].park(rt);
    }

    /// Wakes the kernel thread of `core`, or makes its next park return at once.
    pub fn unpark(&self, core: u8)
        requires { core < parked_cores self.now }
    {
        self.parkers[usize::from(core)].unpark();
    }

    /// Unparks the kernel threads of all cores.
    pub fn unpark_all(&self) {
        for parker in &self.parkers {
            parker.unpark();
        }
    }
}
