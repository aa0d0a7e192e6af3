//! A place: one of a core's thread slots. All places of a table are also numbered from 0.
/// A thread slot of a core. Each slot has one context, the record of a thread.
#[derive(Clone, Copy, Debug, PartialEq, Eq)]
pub struct Place {
    /// The number of the core, from 0.
    pub core: u8,
    /// The index of the slot on its core, below the number of slots of each core.
    pub index: u8,
}

impl Place {
    ghost use Rattle.std.specs.Prelude.{◌≡◌, ◌*◌, ◌<◌};
    ghost use Rattle.arachne_core.specs.Place.{first_place, number_of};

    /// Returns the slot of `context` (a thread record's number) in a new table whose cores have `slots` slots each.
    pub fn of_context(context: u32, slots: u8) -> Self
        requires { context < 256 * slots }
        ensures { result ≡ first_place slots context }
    {
        let slots = u32::from(slots);
        Place {
            core: (context / slots) as u8,
            index: (context % slots) as u8,
        }
    }

    /// Returns the number of the context (thread record) in this slot of a new table with `slots` slots on each core.
    pub fn number(self, slots: u8) -> u32
        ensures { result ≡ number_of slots self }
    {
        u32::from(self.core) * u32::from(slots) + u32::from(self.index)
    }
}
