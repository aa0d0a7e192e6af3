//! The C functions by which a daemon reports to an arbiter what clients do, and asks which core to move next.
ghost use Rattle.std.specs.Prelude.{◌≡◌};
ghost use Rattle.std.specs.declared.option.Option.TheVariants.{None};
ghost use Rattle.arachne_grants_c.specs.ArbiterHeld.{held};
ghost use Rattle.arachne_grants_c.specs.ArbiterTold.{action_alone, asking, begun, ended, gone, joined, waiting, Changes, Decides, Gives, HasNumber, HasPlace, IsClient, IsMade, IsTold, IsVacant, MayJoin, MayWait, Shows, Takes};
ghost use Rattle.arachne_grants_c.specs.Codes.{refused};

use crate::arbiter_handle::ArachneArbiter;
use crate::arbiter_told::{ArachneAction, ArachneShare, action_alone};
use crate::codes::{DONE, NO_MEMORY, REFUSED};
use crate::{events, turns};
use arachne_grants::{CoreArbiter, MAX_CORES};
use std::alloc::Global;

/// Creates an arbiter (the state of a daemon that grants cores) of the cores 0 to `cores` - 1, without clients. Puts
/// the arbiter into the handle `arbiter`, which must have none.
///
/// Returns DONE; REFUSED if the handle already has an arbiter, or if `cores` is greater than 1,024; NO_MEMORY if memory
/// is refused.
#[unsafe(no_mangle)]
pub extern "C" fn arachne_arbiter_new(
    alloc: Global,
    arbiter: &mut ArachneArbiter,
    cores: u32,
) -> u32
    ensures { IsMade cores (held arbiter.old) (held arbiter.new) result }
{
    if arbiter.is_in_use(alloc) || cores > MAX_CORES as u32 {
        return REFUSED;
    }
    let Ok(value) = Box::new(alloc, CoreArbiter::new(cores as u16)) else {
        return NO_MEMORY;
    };
    arbiter.put(value);
    DONE
}

/// Empties a handle, and frees its arbiter, if it has one.
#[unsafe(no_mangle)]
pub extern "C" fn arachne_arbiter_close(alloc: Global, arbiter: &mut ArachneArbiter)
    ensures { held arbiter.new ≡ None }
{
    drop(arbiter.take(alloc));
}

/// Adds a client (a program) with its priority, of which 0 is the highest. The client gets `reserved` cores before
/// others get more than they have reserved, and may ask for at most `most` cores.
///
/// Returns DONE, or REFUSED if the handle has no arbiter, or if the client's number `client` is greater than 63 or in
/// use. The caller must check that the client is entitled to this priority and these cores.
#[unsafe(no_mangle)]
pub extern "C" fn arachne_arbiter_hello(
    alloc: Global,
    arbiter: &mut ArachneArbiter,
    client: usize,
    priority: u8,
    reserved: u32,
    most: u32,
) -> u32
    ensures { IsTold (Changes (IsVacant client) (begun client priority reserved most)) refused (held arbiter.old) (held arbiter.new) result }
{
    let Some(mut value) = arbiter.take(alloc) else {
        return REFUSED;
    };
    let told = events::hello(&mut value, client, priority, reserved, most);
    arbiter.put(value);
    told
}

/// Sets the number of cores for which a client asks in all, in place of its last request.
///
/// Returns DONE, or REFUSED if the handle has no arbiter or there is no such client.
#[unsafe(no_mangle)]
pub extern "C" fn arachne_arbiter_ask(
    alloc: Global,
    arbiter: &mut ArachneArbiter,
    client: usize,
    cores: u32,
) -> u32
    ensures { IsTold (Changes (IsClient client) (asking client cores)) refused (held arbiter.old) (held arbiter.new) result }
{
    let Some(mut value) = arbiter.take(alloc) else {
        return REFUSED;
    };
    let told = events::ask(&mut value, client, cores);
    arbiter.put(value);
    told
}

/// Removes a client, with all of its threads.
///
/// Returns DONE, or REFUSED if the handle has no arbiter or the client's number is greater than 63.
#[unsafe(no_mangle)]
pub extern "C" fn arachne_arbiter_leave(
    alloc: Global,
    arbiter: &mut ArachneArbiter,
    client: usize,
) -> u32
    ensures { IsTold (Changes (HasNumber client) (gone client)) refused (held arbiter.old) (held arbiter.new) result }
{
    let Some(mut value) = arbiter.take(alloc) else {
        return REFUSED;
    };
    let told = events::leave(&mut value, client);
    arbiter.put(value);
    told
}

/// Adds a thread with the number `place` to a client. If `floats` is true, the thread never waits for a core.
///
/// Returns DONE, or REFUSED if the handle has no arbiter, if there is no such client, or if `place` is in use or
/// greater than 63.
#[unsafe(no_mangle)]
pub extern "C" fn arachne_arbiter_join(
    alloc: Global,
    arbiter: &mut ArachneArbiter,
    client: usize,
    place: usize,
    floats: bool,
) -> u32
    ensures { IsTold (Changes (MayJoin client place) (joined client place floats)) refused (held arbiter.old) (held arbiter.new) result }
{
    let Some(mut value) = arbiter.take(alloc) else {
        return REFUSED;
    };
    let told = events::join(&mut value, client, place, floats);
    arbiter.put(value);
    told
}

/// Takes the core from a thread, if it has one, and makes the thread wait until a core is granted to it.
///
/// Returns DONE, or REFUSED if the handle has no arbiter, or if the thread floats (never waits for a core), already
/// waits, or does not exist.
#[unsafe(no_mangle)]
pub extern "C" fn arachne_arbiter_wait(
    alloc: Global,
    arbiter: &mut ArachneArbiter,
    client: usize,
    place: usize,
) -> u32
    ensures { IsTold (Changes (MayWait client place) (waiting client place)) refused (held arbiter.old) (held arbiter.new) result }
{
    let Some(mut value) = arbiter.take(alloc) else {
        return REFUSED;
    };
    let told = events::wait(&mut value, client, place);
    arbiter.put(value);
    told
}

/// Removes a thread of a client, because the thread has ended.
///
/// Returns DONE, or REFUSED if the handle has no arbiter or the number of the client or of the thread is greater than
/// 63.
#[unsafe(no_mangle)]
pub extern "C" fn arachne_arbiter_end(
    alloc: Global,
    arbiter: &mut ArachneArbiter,
    client: usize,
    place: usize,
) -> u32
    ensures { IsTold (Changes (HasPlace client place) (ended client place)) refused (held arbiter.old) (held arbiter.new) result }
{
    let Some(mut value) = arbiter.take(alloc) else {
        return REFUSED;
    };
    let told = events::end(&mut value, client, place);
    arbiter.put(value);
    told
}

/// Computes how many cores each client may have, from the numbers of cores for which all clients ask now.
///
/// Returns DONE, or REFUSED if the handle has no arbiter.
#[unsafe(no_mangle)]
pub extern "C" fn arachne_arbiter_decide(alloc: Global, arbiter: &mut ArachneArbiter) -> u32
    ensures { IsTold Decides refused (held arbiter.old) (held arbiter.new) result }
{
    let Some(mut value) = arbiter.take(alloc) else {
        return REFUSED;
    };
    let told = turns::decide(&mut value);
    arbiter.put(value);
    told
}

/// Takes a core from a client that has more cores than it may have. Of the client's threads with a core, the one with
/// the greatest number loses its core.
///
/// If that thread floats (never waits for a core), takes the core at once. Otherwise takes the core only if `late` is
/// true, which means that the client hasn't given a core back in time. Returns TAKEN; NOTHING if no core was taken;
/// REFUSED if the handle has no arbiter.
#[unsafe(no_mangle)]
pub extern "C" fn arachne_arbiter_take_back(
    alloc: Global,
    arbiter: &mut ArachneArbiter,
    client: usize,
    late: bool,
) -> ArachneAction
    ensures { IsTold (Takes client late) (action_alone refused) (held arbiter.old) (held arbiter.new) result }
{
    let Some(mut value) = arbiter.take(alloc) else {
        return action_alone(REFUSED);
    };
    let told = turns::take_back(&mut value, client, late);
    arbiter.put(value);
    told
}

/// Gives a free core to a thread that can take one, of a client that has fewer cores than it may have.
///
/// Clients of higher priority go first. Returns GRANTED if the thread waited for a core; PLACED if the thread floats
/// (never waits for a core); NOTHING if no core was given; REFUSED if the handle has no arbiter.
#[unsafe(no_mangle)]
pub extern "C" fn arachne_arbiter_give(alloc: Global, arbiter: &mut ArachneArbiter) -> ArachneAction
    ensures { IsTold Gives (action_alone refused) (held arbiter.old) (held arbiter.new) result }
{
    let Some(mut value) = arbiter.take(alloc) else {
        return action_alone(REFUSED);
    };
    let told = turns::give(&mut value);
    arbiter.put(value);
    told
}

/// Returns how many cores a client may have, and how many its threads have now. Both are 0 if the handle has no
/// arbiter.
#[unsafe(no_mangle)]
pub extern "C" fn arachne_arbiter_share(
    alloc: Global,
    arbiter: &mut ArachneArbiter,
    client: usize,
) -> ArachneShare
    ensures { IsTold (Shows client) (record { allowed = 0; held = 0 }) (held arbiter.old) (held arbiter.new) result }
{
    let Some(value) = arbiter.take(alloc) else {
        return ArachneShare {
            allowed: 0,
            held: 0,
        };
    };
    let told = turns::share(&value, client);
    arbiter.put(value);
    told
}
