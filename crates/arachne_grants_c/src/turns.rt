//! Decides how many cores each client may have, and which thread gets or loses a core next.
ghost use Rattle.std.specs.Prelude.{◌≡◌};
ghost use Rattle.arachne_grants_c.specs.ArbiterTold.{share_of, Decides, Gives, Takes};

use crate::arbiter_told::{ArachneAction, ArachneShare, action_alone, told_given, told_taken};
use crate::codes::{DONE, NOTHING};
use arachne_grants::CoreArbiter;

pub(crate) fn decide(arbiter: &mut CoreArbiter) -> u32
    ensures { Decides arbiter.old arbiter.new result }
{
    arbiter.decide();
    DONE
}

pub(crate) fn take_back(arbiter: &mut CoreArbiter, client: usize, late: bool) -> ArachneAction
    ensures { Takes client late arbiter.old arbiter.new result }
{
    match arbiter.take_back(client, late) {
        Some(taken) => told_taken(client, &taken),
        None => action_alone(NOTHING),
    }
}

pub(crate) fn give(arbiter: &mut CoreArbiter) -> ArachneAction
    ensures { Gives arbiter.old arbiter.new result }
{
    match arbiter.give() {
        Some(grant) => told_given(&grant),
        None => action_alone(NOTHING),
    }
}

pub(crate) fn share(arbiter: &CoreArbiter, client: usize) -> ArachneShare
    ensures { result ≡ share_of client arbiter.now }
{
    ArachneShare {
        allowed: arbiter.allowed_to(client),
        held: arbiter.held_by(client),
    }
}
