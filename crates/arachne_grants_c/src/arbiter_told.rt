//! Turns an arbiter's decisions into C structs.
ghost use Rattle.std.specs.Prelude.{◌≡◌};
ghost use Rattle.arachne_grants_c.specs.ArbiterTold.{action_alone, told_given, told_taken};

use crate::codes::{GRANTED, PLACED, TAKEN};
use arachne_grants::{Grant, TakenCore};

/// The action that the caller must take on a client's thread. Fields that this action does not use are 0.
#[repr(C)]
#[derive(Clone, Copy)]
pub struct ArachneAction {
    /// TAKEN, PLACED, GRANTED or NOTHING, or REFUSED if the handle has no arbiter.
    pub code: u32,
    pub core: u32,
    pub client: usize,
    pub place: usize,
}

/// The numbers of a client's cores.
#[repr(C)]
#[derive(Clone, Copy)]
pub struct ArachneShare {
    /// The number of cores that the client may have.
    pub allowed: u32,
    /// The number of cores that the client's threads have.
    pub held: u32,
}

pub(crate) fn action_alone(code: u32) -> ArachneAction
    ensures { result ≡ action_alone code }
{
    ArachneAction {
        code,
        core: 0,
        client: 0,
        place: 0,
    }
}

pub(crate) fn told_given(grant: &Grant) -> ArachneAction
    ensures { result ≡ told_given grant.now }
{
    ArachneAction {
        code: if grant.waited { GRANTED } else { PLACED },
        core: u32::from(grant.core),
        client: grant.client,
        place: grant.place,
    }
}

pub(crate) fn told_taken(client: usize, taken: &TakenCore) -> ArachneAction
    ensures { result ≡ told_taken client taken.now }
{
    ArachneAction {
        code: TAKEN,
        core: u32::from(taken.core),
        client,
        place: taken.place,
    }
}
