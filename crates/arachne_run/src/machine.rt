//! The objects that the workers of a run share, the rights to use them, and the calls that make and close them.
ghost use Rattle.std.specs.Prelude.{◌≡◌, ◌≤◌, ◌⊎◌, ◌↔◌, ◌%◌, ◌^◌, [], false, true, Err, IfErr, IfOk, IfSome, IsOk, IsSome, IsTrue, None, OnOk, length, map};
ghost use Rattle.arachne_program.specs.Program.{tree_of};
ghost use Rattle.arachne_core.specs.Occupancy.{count_of};
ghost use Rattle.arachne_jobs.specs.Classes.{forks_exclusive};
ghost use Rattle.arachne_policy.specs.Orders.{AreInOrder};
ghost use Rattle.arachne_workers.specs.Keeping.{MayKeepPlaces};
ghost use Rattle.arachne_jobs.specs.Views.{IsPassOf};
ghost use Rattle.arachne_weights.specs.Weight.{whole};
ghost use Rattle.arachne_run.specs.declared.fault.WorkerFault.TheVariants.{Memory, Token};
ghost use Rattle.arachne_run.specs.Histories.{AreOfLocks};
ghost use Rattle.arachne_run.specs.Tokens.{AreAllBack, AreIdle, IsAnyLeft, IsMachineFor, IsSetUp};

use crate::fault::WorkerFault;
use crate::resources::{Holdings, Remains, Resources};
use crate::shared::SharedState;
use arachne_arbiter::{Arbiter, Cores};
use arachne_contexts::{Contexts, Seats, Tagged};
use arachne_core::{CORES, OccWord, SLOTS};
use arachne_jobs::{CAPACITY, SpillPass, SpillQueue, has_exclusive};
use arachne_ledger::Ledgers;
use arachne_policy::CoreOrder;
use arachne_program::Program;
use arachne_sleep::SleepLocks;
use arachne_workers::{keeps_place, may_keep_places};
use std::alloc::{AllocError, Global};
use std::marker::PhantomData;
use std::sync::Wait;

/// The objects that the workers of a run share, and the run's settings.
#[derive(Drop)]
pub(crate) struct Machine<C, K: Tagged + Drop> {
    pub(crate) shared: SharedState,
    pub(crate) resources: Resources,
    pub(crate) tickets: SpillQueue<K>,
    pub(crate) table: C,
    pub(crate) cores: u8,
    pub(crate) slots: u8,
    pub(crate) quantum: u32,
    /// The number of the run's orders to close or open cores.
    pub(crate) orders: usize,
    /// True if workers may keep slots of ended threads claimed for threads that are forked later.
    pub(crate) may_keep: bool,
    /// True if workers may move threads to their own cores.
    ///
    /// False if the program forks threads that want a core for themselves: such a thread needs an empty core, and a
    /// move occupies a slot of the worker's core for a while.
    pub(crate) may_pull: bool,
}

/// A worker's rights to use the objects of a run: the table by `seat`, the tickets by `pass`, the ledgers and locks by
/// `holdings`. One worker also has the arbiter, which opens and closes cores.
#[derive(Drop)]
pub(crate) struct Tokens<S, K> {
    pub(crate) seat: S,
    pub(crate) pass: SpillPass<K>,
    pub(crate) holdings: Holdings,
    pub(crate) arbiter: Option<Arbiter>,
}

impl<C: Seats, K: Tagged + Drop> Machine<C, K> {
    /// Returns true if a worker keeps an ended thread's slot claimed for a later thread.
    ///
    /// The core must have been full, open and shared, as its occupancy word `before` says.
    #[inline(always)]
    pub(crate) fn keeps_place(&self, before: OccWord) -> bool
        ensures { IsTrue result ↔ (self.now.may_keep ≡ true) × (self.now.slots ≤ count_of before.occupied)
            × (before.closed ≡ false) × (before.exclusive ≡ false) }
    {
        self.may_keep && keeps_place(before, self.slots)
    }

    pub(crate) fn cores<'a, H, T>(&'a self, rt: &'a H) -> Cores<'a, H, T, C>
        requires { IsSetUp C.core_count C.slot_count self.now }
        ensures table { result.table.now ≡ self.now.table }
        ensures count { result.count ≡ self.now.cores }
    {
        Cores {
            rt,
            table: &self.table,
            count: self.cores,
            slots: self.slots,
            of: PhantomData,
        }
    }
}

impl<C: Seats + Drop, K: Tagged + Drop> Machine<C, K> {
    /// Makes the objects of a run, with the tokens (rights) of which those of all workers are split off.
    pub(crate) fn new(
        alloc: Global,
        cores: u8,
        slots: u8,
        quantum: u32,
        orders: Vec<CoreOrder>,
        program: &Program,
    ) -> Result<(Machine<C, K>, Tokens<C::Seat, K>), AllocError>
        requires some { 1 ≤ cores }
        requires most { cores ≤ CORES }
        requires some_slots { 1 ≤ slots }
        requires most_slots { slots ≤ SLOTS }
        requires some_steps { 1 ≤ quantum }
        requires orders { AreInOrder cores orders.items }
        ensures made { IfOk result (λ made. AreIdle C.sits C.idle made.0 made.1 × IsSetUp C.core_count C.slot_count made.0
            × IsMachineFor cores slots quantum (length orders.items) program.now made.0) }
        ensures keeps { IfOk result (λ made. IsTrue made.0.may_keep ↔ MayKeepPlaces (forks_exclusive (tree_of program.now.root)) (length orders.items) program.now.locks cores) }
    {
        let count = orders.len();
        let exclusive = has_exclusive(&program.root);
        let arbiter = Arbiter::new(alloc, orders, cores)?;
        let (ledgers, share) = Ledgers::new(alloc, usize::from(program.ledgers))?;
        let (locks, lock_seats) = SleepLocks::new(alloc, program.locks)?;
        let (tickets, pass) = SpillQueue::new(alloc)?;
        let (table, seat) = C::new(alloc, cores, slots, 0)?;
        let machine = Machine {
            shared: SharedState::new(alloc, cores, slots)?,
            resources: Resources { ledgers, locks },
            tickets,
            table,
            cores,
            slots,
            quantum,
            orders: count,
            may_keep: may_keep_places(exclusive, count, program.locks, cores),
            may_pull: !exclusive,
        };
        let tokens = Tokens {
            seat,
            pass,
            holdings: Holdings { share, lock_seats },
            arbiter: Some(arbiter),
        };
        Ok((machine, tokens))
    }

    /// Returns the ledgers' sums, the locks' histories, and the number of orders carried out. The error is the first
    /// fault of a worker, if any has failed, or `Token` if not all tokens (rights) are back or a thread is left.
    pub(crate) fn close<H: Wait, T>(
        self,
        rt: &H,
        alloc: Global,
        tokens: Option<Tokens<C::Seat, K>>,
    ) -> Result<(Remains, usize), WorkerFault>
    where
        T: Tagged + Drop,
        C: Contexts<T>,
        requires { IfSome tokens (AreIdle C.sits C.idle self) }
        ensures sound { IfOk result (λ closed. (closed.1 ≤ self.orders) × AreOfLocks (length self.resources.locks) closed.0.histories.items) }
        ensures applied { IfOk result (λ closed. IfSome tokens (λ tokens. IfSome tokens.arbiter (λ progress. closed.1 ≡ progress.applied))) }
        ensures sums { IfOk result (λ closed. IfSome tokens (λ tokens. closed.0.sums.items ≡ map (λ sum. sum % 2 ^ 64) tokens.holdings.share.sums)) }
        ensures back { IsOk result → IsSome tokens × IfSome tokens (AreAllBack C.weight) }
    {
        let Machine {
            shared,
            resources,
            tickets,
            table,
            ..
        } = self;
        let SharedState { first_fault, .. } = shared;
        let first = first_fault.into_inner();
        let Tokens {
            seat,
            pass,
            holdings,
            arbiter,
        } = all_of(first, tokens, &table, &tickets, &resources.locks)?;
        let Some(arbiter) = arbiter else {
            return Err(WorkerFault::Token);
        };
        empty(rt, &tickets, pass);
        end_table(rt, alloc, table, seat)?;
        let remains = resources.close(alloc, holdings)?;
        Ok((remains, arbiter.applied()))
    }
}

impl<S, K: Tagged + Drop> Tokens<S, K> {
    /// Splits a worker's tokens (rights) in two, of which the first keep the arbiter.
    ///
    /// If memory is refused, returns the tokens unsplit.
    pub(crate) fn split<H: Wait, C: Seats<Seat = S>>(
        self,
        rt: &H,
        alloc: Global,
        machine: &Machine<C, K>,
    ) -> Result<(Tokens<S, K>, Tokens<S, K>), Tokens<S, K>>
        requires { AreIdle C.sits C.idle machine.now self }
        ensures own { IfOk result (λ parts. AreIdle C.sits C.idle machine.now parts.0) }
        ensures others { IfOk result (λ parts. AreIdle C.sits C.idle machine.now parts.1) }
        ensures err { IfErr result (λ back. AreIdle C.sits C.idle machine.now back × (back.arbiter ≡ self.arbiter)) }
        ensures arbiter { IfOk result (λ parts. (parts.0.arbiter ≡ self.arbiter) × (parts.1.arbiter ≡ None)) }
    {
        let (holdings, other_holdings) = match machine.resources.split(alloc, self.holdings) {
            Ok(parts) => parts,
            Err(holdings) => return Err(Tokens { holdings, ..self }),
        };
        let (seat, other_seat) = machine.table.split(rt, self.seat);
        let (pass, other_pass) = machine.tickets.split(rt, self.pass);
        let own = Tokens {
            seat,
            pass,
            holdings,
            arbiter: self.arbiter,
        };
        let others = Tokens {
            seat: other_seat,
            pass: other_pass,
            holdings: other_holdings,
            arbiter: None,
        };
        Ok((own, others))
    }

    /// Joins the tokens (rights) of another worker to these, and drops the arbiter in `other`.
    pub(crate) fn join<H: Wait, C: Seats<Seat = S>>(
        self,
        rt: &H,
        machine: &Machine<C, K>,
        other: Tokens<S, K>,
    ) -> Tokens<S, K>
        requires own { AreIdle C.sits C.idle machine.now self }
        requires others { AreIdle C.sits C.idle machine.now other }
        ensures idle { AreIdle C.sits C.idle machine.now result }
        ensures arbiter { result.arbiter ≡ self.arbiter }
    {
        let (ledgers, locks) = (&machine.resources.ledgers, &machine.resources.locks);
        let (mine, theirs) = (self.holdings, other.holdings);
        Tokens {
            seat: machine.table.join_seats(rt, self.seat, other.seat),
            pass: machine.tickets.join_passes(rt, self.pass, other.pass),
            holdings: Holdings {
                share: ledgers.join_shares(mine.share, theirs.share),
                lock_seats: locks.join_seats(mine.lock_seats, theirs.lock_seats),
            },
            arbiter: self.arbiter,
        }
    }
}

/// Returns all workers' tokens (rights), or the fault `Token` if some of them are missing.
fn all_of<C: Seats, K: Tagged + Drop>(
    first: Option<WorkerFault>,
    tokens: Option<Tokens<C::Seat, K>>,
    table: &C,
    tickets: &SpillQueue<K>,
    locks: &SleepLocks,
) -> Result<Tokens<C::Seat, K>, WorkerFault>
    ensures first { IfSome first (λ fault. result ≡ Err fault) }
    ensures missing { first ≡ None → tokens ≡ None → result ≡ Err Token }
    ensures part { first ≡ None → IfSome tokens (λ tokens. (AreAllBack C.weight tokens → ⊥) → result ≡ Err Token) }
    ensures all { IfOk result (λ found. (tokens ≡ Some found) × AreAllBack C.weight found) }
{
    if let Some(fault) = first {
        return Err(fault);
    }
    let tokens = tokens.ok_or(WorkerFault::Token)?;
    if table.is_whole(&tokens.seat)
        && tickets.is_whole(&tokens.pass)
        && tokens.holdings.share.is_whole()
        && locks.are_whole(&tokens.holdings.lock_seats)
    {
        Ok(tokens)
    } else {
        Err(WorkerFault::Token)
    }
}

/// Closes the table. Returns the fault `Token` if a thread is left in it.
fn end_table<H: Wait, T: Tagged + Drop, C: Contexts<T> + Drop>(
    rt: &H,
    alloc: Global,
    table: C,
    seat: C::Seat,
) -> Result<(), WorkerFault>
    requires seat { C.sits table seat }
    requires idle { C.idle table seat }
    requires whole { C.weight seat ≡ whole }
    ensures none_left { OnOk result (C.settles table seat []) }
    ensures left { result ≡ Err Token → IsAnyLeft (C.settles table seat) }
    ensures fault { IfErr result (λ fault. (fault ≡ Memory) ⊎ (fault ≡ Token)) }
{
    let Ok(rest) = table.close(rt, alloc, seat) else {
        return Err(WorkerFault::Memory);
    };
    if rest.is_empty() {
        Ok(())
    } else {
        Err(WorkerFault::Token)
    }
}

/// Drops the tickets that are left in the queue. Their children no longer wait if all threads have ended.
fn empty<H: Wait, K: Tagged + Drop>(rt: &H, tickets: &SpillQueue<K>, pass: SpillPass<K>)
    requires { IsPassOf tickets.now pass }
{
    let mut rest = pass;
    for _ in 0..CAPACITY {
        if tickets.pop(rt, &mut rest).is_none() {
            break;
        }
    }
}
