//! Reports events of clients and of their threads to an arbiter.
ghost use Rattle.std.specs.Prelude.{◌≡◌};
ghost use Rattle.arachne_grants_c.specs.ArbiterTold.{asking, begun, ended, gone, joined, waiting, Changes, HasNumber, HasPlace, IsClient, IsVacant, MayJoin, MayWait};

use crate::codes::{DONE, REFUSED};
use arachne_grants::{CoreArbiter, MAX_CLIENTS, MAX_THREADS, Refused};

pub(crate) fn hello(
    arbiter: &mut CoreArbiter,
    client: usize,
    priority: u8,
    reserved: u32,
    most: u32,
) -> u32
    ensures { Changes (IsVacant client) (begun client priority reserved most) arbiter.old arbiter.new result }
{
    match arbiter.hello(client, priority, reserved, most) {
        Ok(()) => DONE,
        Err(Refused) => REFUSED,
    }
}

pub(crate) fn ask(arbiter: &mut CoreArbiter, client: usize, cores: u32) -> u32
    ensures { Changes (IsClient client) (asking client cores) arbiter.old arbiter.new result }
{
    match arbiter.ask(client, cores) {
        Ok(()) => DONE,
        Err(Refused) => REFUSED,
    }
}

pub(crate) fn leave(arbiter: &mut CoreArbiter, client: usize) -> u32
    ensures { Changes (HasNumber client) (gone client) arbiter.old arbiter.new result }
{
    if client >= MAX_CLIENTS {
        return REFUSED;
    }
    arbiter.leave(client);
    DONE
}

pub(crate) fn join(arbiter: &mut CoreArbiter, client: usize, place: usize, floats: bool) -> u32
    ensures { Changes (MayJoin client place) (joined client place floats) arbiter.old arbiter.new result }
{
    match arbiter.join(client, place, floats) {
        Ok(()) => DONE,
        Err(Refused) => REFUSED,
    }
}

pub(crate) fn wait(arbiter: &mut CoreArbiter, client: usize, place: usize) -> u32
    ensures { Changes (MayWait client place) (waiting client place) arbiter.old arbiter.new result }
{
    match arbiter.wait(client, place) {
        Ok(()) => DONE,
        Err(Refused) => REFUSED,
    }
}

pub(crate) fn end(arbiter: &mut CoreArbiter, client: usize, place: usize) -> u32
    ensures { Changes (HasPlace client place) (ended client place) arbiter.old arbiter.new result }
{
    if client >= MAX_CLIENTS || place >= MAX_THREADS {
        return REFUSED;
    }
    arbiter.end(client, place);
    DONE
}
