//! A worker's calls on the locks and the ledgers (shared counters). The worker repeats a call on a lock while another
//! kernel thread is in a call on the same lock.
ghost use Rattle.std.specs.Prelude.{◌≡◌, ◌<◌, ◌≤◌, Err, None, Ok, Some, MatchOption, IfErr, IfOk, IsOk, OnOk, length};
ghost use Rattle.arachne_ledger.specs.Sums.{raised};
ghost use Rattle.arachne_machine.specs.declared.pause.Pending.TheVariants as pause;
ghost use Rattle.arachne_sleep.specs.Calls.{FreeAnswer};
ghost use Rattle.arachne_sleep.specs.SleepLocks.{AreSeatsOf, ChangesAt};
ghost use Rattle.arachne_sleep.specs.declared.answer.Tried.TheVariants.{Answered};
ghost use Rattle.arachne_run.specs.Serving.{IsGrantBy, IsServed, IsSettled, StopsAt};
ghost use Rattle.arachne_run.specs.Tokens.{AreHoldingsOf};
ghost use Rattle.arachne_workers.specs.declared.dispatch.ThreadStop.TheVariants as stopped;
ghost use Rattle.arachne_run.specs.declared.fault.WorkerFault.TheVariants.{Foreign};
ghost use Rattle.arachne_run.specs.declared.granted.Granted.{Granted};

use crate::fault::WorkerFault;
use crate::granted::{self, Attempt, Granted, LockCall};
use crate::resources::{Holdings, Resources};
use arachne_arbiter::Backoff;
use arachne_core::ThreadId;
use arachne_jobs::{Due, RunThread};
use arachne_sleep::{Freed, LockSeats, NotHolder, SleepLocks, Tried, Who};
use arachne_workers::{ThreadStop, stand_by};
use std::marker::Model;
use std::sync::Wait;
use std::time::Clock;

/// The run's locks and ledgers, and a worker's rights to use them.
#[derive(Drop)]
pub(crate) struct Access<'a> {
    pub(crate) resources: &'a Resources,
    pub(crate) holdings: Holdings,
}

impl<'a> Model for Access<'a> {
    ghost use Rattle.arachne_run.specs.Tokens.{AccessView, AreHoldingsOf};

    ghost Value = { AccessView };

    ghost view = { λ a. record { resources = a.resources.now; sums = a.holdings.share.sums } };

    ghost invariant = { λ a. AreHoldingsOf a.resources.now a.holdings };
}

impl<'a> Access<'a> {
    /// Gets a lock for `thread`, and resumes the thread, unless it must wait for the lock.
    ///
    /// Tries again while another kernel thread is in a call on the lock. If the thread gets the lock, `grant` becomes
    /// the evidence of that.
    pub(crate) fn get<H: Wait + Clock, T: RunThread>(
        &mut self,
        rt: &H,
        backoff: &mut Backoff,
        call: LockCall,
        lock: u64,
        id: ThreadId,
        thread: &mut T,
        grant: &mut Option<Granted>,
    ) -> Result<ThreadStop, WorkerFault>
        requires { T.pause_of thread.old ≡ Some (pause.Asks lock) }
        ensures same { (self.new ≡ self.old) × (T.tag_of thread.new ≡ T.tag_of thread.old) }
        ensures stops { IfOk result (λ stop. StopsAt stop (T.pause_of thread.new)) }
        ensures served { IfOk result (IsServed call lock (record { tag = T.running_tag_of thread.old; id = id }) grant.old grant.new) }
    {
        let tag = thread.running_tag();
        let mut tries: u32 = 0;
        for _ in rt.forever() {
            if let Tried::Answered(answer) = self.try_get(call, lock, Who { tag, id })? {
                let Some(granted) = answer? else {
                    return Ok(ThreadStop::Waits(lock));
                };
                *grant = Some(granted);
                thread.answer()?;
                return Ok(ThreadStop::Goes);
            }
            stand_by(rt, backoff, &mut tries);
        }
        unreachable!()
    }

    /// Frees a lock of `thread`, and resumes the thread.
    ///
    /// Tries again while another kernel thread is in a call on the lock. The result names the lock's next holder, if
    /// there is one.
    pub(crate) fn free<H: Wait + Clock, T: RunThread>(
        &mut self,
        rt: &H,
        backoff: &mut Backoff,
        lock: u64,
        id: ThreadId,
        thread: &mut T,
        grant: &mut Option<Granted>,
    ) -> Result<ThreadStop, WorkerFault>
        requires { T.pause_of thread.old ≡ Some (pause.Frees lock) }
        ensures same { (self.new ≡ self.old) × (T.tag_of thread.new ≡ T.tag_of thread.old) }
        ensures stops { IfOk result (λ stop. StopsAt stop (T.pause_of thread.new)) }
        ensures freed { OnOk result (grant.new ≡ None) }
    {
        let tag = thread.running_tag();
        let mut tries: u32 = 0;
        for _ in rt.forever() {
            if let Tried::Answered(answer) = self.try_free(lock, Who { tag, id })? {
                let freed = answer?;
                *grant = None;
                thread.answer()?;
                return Ok(stop_after(freed));
            }
            stand_by(rt, backoff, &mut tries);
        }
        unreachable!()
    }

    /// Adds the amount of the thread's tally (an addition to a ledger), and resumes the thread.
    pub(crate) fn tally<T: RunThread>(
        &mut self,
        ledger: u64,
        amount: u64,
        thread: &mut T,
    ) -> Result<ThreadStop, WorkerFault>
        requires { T.pause_of thread.old ≡ Some (pause.Tallies ledger amount) }
        ensures same { (self.new.resources ≡ self.old.resources) × (T.tag_of thread.new ≡ T.tag_of thread.old) }
        ensures sums { OnOk result (self.new.sums ≡ raised self.old.sums ledger amount) }
        ensures stops { IfOk result (λ stop. StopsAt stop (T.pause_of thread.new)) }
    {
        self.add(ledger, amount)?;
        thread.answer()?;
        Ok(ThreadStop::Goes)
    }

    /// Tries once to get a lock. The error is `Foreign` if there is no such lock.
    fn try_get(&mut self, call: LockCall, lock: u64, who: Who) -> Result<Attempt, WorkerFault>
        ensures same { self.new ≡ self.old }
        ensures pass { (granted : Granted) → result ≡ Ok (Answered (Ok (Some granted))) → IsGrantBy call lock who granted }
    {
        let locks = &self.resources.locks;
        let lock = number_of(locks, lock)?;
        let seats = &mut self.holdings.lock_seats;
        match call {
            LockCall::Ask => Ok(granted::ask(locks, seats, lock, who)),
            LockCall::Check => Ok(granted::check(locks, seats, lock, who)),
        }
    }

    fn try_free(
        &mut self,
        lock: u64,
        who: Who,
    ) -> Result<Tried<Result<Freed, NotHolder>>, WorkerFault>
        ensures { self.new ≡ self.old }
    {
        let seats = &mut self.holdings.lock_seats;
        free_at(&self.resources.locks, seats, lock, who)
    }

    /// Adds the amount that this worker's threads have collected in `due` to its ledger, and clears `due`.
    #[inline(always)]
    pub(crate) fn settle(&mut self, due: &mut Due) -> Result<(), WorkerFault>
        ensures same { self.new.resources ≡ self.old.resources }
        ensures added { OnOk result (IsSettled due.old self.old.sums self.new.sums) }
        ensures settled { OnOk result (due.new.amount ≡ 0) }
    {
        if due.amount == 0 {
            return Ok(());
        }
        self.add(due.ledger, due.amount)?;
        due.amount = 0;
        Ok(())
    }

    /// Adds `amount` to a ledger (a shared counter). The error is `Foreign` if there is no such ledger.
    pub(crate) fn add(&mut self, ledger: u64, amount: u64) -> Result<(), WorkerFault>
        ensures same { self.new.resources ≡ self.old.resources }
        ensures raised { OnOk result (self.new.sums ≡ raised self.old.sums ledger amount) }
        ensures there { ledger < self.old.resources.ledgers.count → IsOk result }
        ensures missing { self.old.resources.ledgers.count ≤ ledger → (result ≡ Err Foreign) × (self.new ≡ self.old) }
    {
        let ledgers = &self.resources.ledgers;
        if ledger >= ledgers.count() as u64 {
            return Err(WorkerFault::Foreign);
        }
        ledgers.add(&mut self.holdings.share, ledger as usize, amount);
        Ok(())
    }
}

#[inline(always)]
fn stop_after(freed: Freed) -> ThreadStop
    ensures next { MatchOption freed.next (result ≡ stopped.Goes) (λ next. result ≡ stopped.Wakes next.id) }
    ensures goes_on { StopsAt result None }
{
    match freed.next {
        Some(next) => ThreadStop::Wakes(next.id),
        None => ThreadStop::Goes,
    }
}

/// Tries once to free a lock. The error is `Foreign` if there is no such lock.
fn free_at(
    locks: &SleepLocks,
    seats: &mut LockSeats,
    lock: u64,
    who: Who,
) -> Result<Tried<Result<Freed, NotHolder>>, WorkerFault>
    requires { AreSeatsOf locks.now seats.old }
    ensures own { AreSeatsOf locks.now seats.new }
    ensures missing { length locks.now ≤ lock → (result ≡ Err Foreign) × (seats.new ≡ seats.old) }
    ensures freed { IfOk result (λ tried. ChangesAt lock seats.old seats.new (λ old new. FreeAnswer lock who old tried new)) }
{
    let lock = number_of(locks, lock)?;
    Ok(locks.free(seats, lock, who))
}

fn number_of(locks: &SleepLocks, lock: u64) -> Result<u8, WorkerFault>
    ensures there { IfOk result (λ number. number < length locks.now) }
    ensures same { IfOk result (λ number. number ≡ lock) }
    ensures missing { length locks.now ≤ lock → result ≡ Err Foreign }
    ensures fault { IfErr result (λ fault. fault ≡ Foreign) }
{
    if lock >= locks.count() as u64 {
        return Err(WorkerFault::Foreign);
    }
    match u8::try_from(lock) {
        Ok(number) => Ok(number),
        Err(_) => Err(WorkerFault::Foreign),
    }
}
