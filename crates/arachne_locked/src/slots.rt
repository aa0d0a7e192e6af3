//! The number of thread slots of each core, outside the lock.
ghost use Rattle.std.specs.Prelude.{◌≡◌, ◌≤◌};

use arachne_core::SLOTS;
use std::marker::Model;

/// The number of thread slots of each core, which calls can read without taking the lock.
#[derive(Clone, Copy, Debug)]
pub struct Slots {
    count: u8,
}

impl Model for Slots {
    ghost use Rattle.std.specs.Prelude.{ℕ, ◌≤◌};
    ghost use Rattle.arachne_core.specs.declared.layout.TheConstants.{SLOTS};

    ghost Value = { ℕ };

    ghost view = { λ s. s.count };

    ghost invariant = { λ s. s.count ≤ SLOTS };

    ghost inverse = { λ n. record { count = n } };
}

impl Slots {
    pub fn new(count: u8) -> Self
        requires { count ≤ SLOTS }
        ensures { result ≡ count }
    {
        Slots { count }
    }

    pub fn count(self) -> u8
        ensures value { result ≡ self }
        ensures few { result ≤ SLOTS }
    {
        self.count
    }
}
