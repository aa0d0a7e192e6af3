//! Test cases for a pool: a list of acts of one worker, each with its expected result.
ghost use Rattle.std.specs.Prelude.{◌≡◌, ◌<◌, ◌≤◌, IfSome};
ghost use Rattle.arachne_core.specs.declared.layout.TheConstants.{CORES, SLOTS};
ghost use Rattle.arachne_policy.specs.Orders.{AreInOrder};
ghost use Rattle.arachne_pool.specs.Workers.{IsWorkerOf};

use crate::board::Board;
use crate::spells::Spell;
use crate::tasks::Task;
use arachne_contexts::{Contexts, Seats, Woken};
use arachne_core::{CORES, OccWord, SLOTS, ThreadId};
use arachne_policy::{CoreOrder, OrderKind, check_orders};
use arachne_pool::{Left, Pool, PoolFault, Refusal, Spawned, Worker};
use arachne_shortage::Hoard;
use std::alloc::Global;
use std::sync::atomic::Ordering;
use std::sync::{Arc, Wait};
use std::time::Clock;

/// The number of bytes that the test frees after an allocation was refused.
const FEW: usize = 40;

const TRIES: u32 = 100_000;

/// Returns `u64::MAX` if `word` isn't a number.
fn number(word: Option<&str>) -> u64 {
    word.unwrap_or("").parse::<u64>().unwrap_or(u64::MAX)
}

/// Parses orders to close and open cores. By `0 release 1, 8 grant 1`, core 1 is closed at once, and opened after 8
/// slices. Returns `None` if the orders are not valid, or memory is refused.
fn orders_of(alloc: Global, text: &str, cores: u8) -> Option<Vec<CoreOrder>>
    ensures { IfSome result (λ orders. AreInOrder cores orders.items) }
{
    let mut list = Vec::new(alloc);
    for order in text.split(',') {
        let mut words = order.split_whitespace();
        let (after, kind, core) = (number(words.next()), words.next(), number(words.next()));
        let kind = match kind {
            Some("grant") => OrderKind::Grant,
            Some("release") => OrderKind::Release,
            _ => continue,
        };
        list.push(CoreOrder { after, kind, core }).ok()?;
    }
    check_orders(&list, u64::from(cores)).ok()?;
    Some(list)
}

/// A test case: a pool, what workers do with it, and the numbers of jobs that must be left.
///
/// First one worker does the steps `acts`, each of which states its expected result. Then two kernel threads, one for
/// core 0 and one for core 1, each do their part in `spells`; at least `busy` of them must end a job. At last one
/// worker does the steps `then`.
///
/// `left` has the number of jobs that must be left in slots, and of those that must still wait for a slot. `alive` also
/// counts those that run or wait inside the slots of others.
#[derive(Clone, Copy)]
pub(crate) struct Row {
    pub(crate) shows: &'static str,
    pub(crate) cores: u8,
    pub(crate) slots: u8,
    pub(crate) orders: &'static str,
    pub(crate) acts: &'static str,
    pub(crate) spells: (Spell, Spell),
    pub(crate) busy: usize,
    pub(crate) then: &'static str,
    pub(crate) left: (usize, usize),
    pub(crate) alive: usize,
}

#[derive(Drop)]
pub(crate) struct Share<S> {
    pub(crate) worker: Worker<S, Task>,
    pub(crate) busy: usize,
}

/// Returns the pool of a test case after the steps `acts`, or `None` if the pool can't be made, or a result isn't the
/// expected one.
pub(crate) fn begin<C: Contexts<Spawned<Task>> + Drop, R: Wait + Clock>(
    rt: &R,
    board: &Arc<Board>,
    row: &Row,
) -> Option<(Pool<C>, Worker<C::Seat, Task>)>
    ensures { IfSome result (λ made. IsWorkerOf made.0 made.1) }
{
    let Row { cores, slots, .. } = *row;
    if cores < 1 || cores > CORES || slots < 1 || slots > SLOTS {
        return None;
    }
    let orders = orders_of(board.alloc, row.orders, cores)?;
    let (pool, mut worker) = Pool::<C>::new::<Task>(board.alloc, cores, slots, orders).ok()?;
    let bench = Bench {
        rt,
        pool: &pool,
        board,
    };
    bench.all_hold(&mut worker, row.acts)?;
    Some((pool, worker))
}

/// Does the steps `then`, and closes the pool.
///
/// Returns `None` if the result of a step, the number of busy kernel threads or the jobs that are left are not the
/// expected ones.
pub(crate) fn end<C: Contexts<Spawned<Task>> + Drop, R: Wait + Clock>(
    rt: &R,
    board: &Arc<Board>,
    pool: Pool<C>,
    share: Share<C::Seat>,
    row: &Row,
) -> Option<()>
    requires { IsWorkerOf pool share.worker }
{
    let Share { mut worker, busy } = share;
    let bench = Bench {
        rt,
        pool: &pool,
        board,
    };
    bench.all_hold(&mut worker, row.then)?;
    let left = pool.close(rt, board.alloc, worker).ok()?;
    let sizes = (left.placed.len(), left.near.len());
    let is_so = busy >= row.busy && sizes == row.left && count_left(left) == row.alive;
    is_so.then_some(())
}

fn count_left(left: Left<Task>) -> usize {
    let Left { placed, near } = left;
    let mut count: usize = 0;
    for (_, job) in placed {
        count = count.saturating_add(count_in(job));
    }
    let mut near = near;
    for _ in 0..near.len() {
        if let Some(job) = near.pop_front() {
            count = count.saturating_add(count_in(job));
        }
    }
    count
}

fn count_in(job: Spawned<Task>) -> usize {
    let mut jobs = job.into_jobs();
    let mut count: usize = 0;
    while jobs.take().is_some() {
        count = count.saturating_add(1);
    }
    count
}

#[derive(Drop)]
pub(crate) struct Bench<'p, C: Seats, R> {
    pub(crate) rt: &'p R,
    pub(crate) pool: &'p Pool<C>,
    pub(crate) board: &'p Arc<Board>,
}

impl<'p, C: Contexts<Spawned<Task>>, R: Wait + Clock> Bench<'p, C, R> {
    /// Returns `None` at the first of these steps that hasn't the result that it states.
    ///
    /// The act `hoards` takes all memory that the process can get, and `frees` frees it.
    fn all_hold(&self, worker: &mut Worker<C::Seat, Task>, acts: &str) -> Option<()>
        requires { IsWorkerOf self.now.pool.now worker.old }
        ensures { IsWorkerOf self.now.pool.now worker.new }
    {
        let mut hoard: Option<Hoard> = None;
        for act in acts.split('|') {
            match act.trim() {
                "" => {}
                "hoards" => hoard = Some(Hoard::take(self.board.alloc).ok()?),
                "frees" => hoard = None,
                act => self.holds(worker, act).then_some(())?,
            }
        }
        Some(())
    }

    /// Does one step of a test case. Returns true if it has the result that it states.
    ///
    /// `spawn SORT` spawns a job of this sort (`Sort::of` has its words), and `spawns COUNT SORT` spawns COUNT of them.
    /// `try SORT` calls `try_spawn`, which must spawn the job; in `no-place SORT` and `no-memory SORT` it must refuse.
    /// `wakes`, `awake` and `nobody` wake the job with this context number and generation; it must sleep, be awake, or
    /// have ended. `orders` gives the pool new orders to close and open cores. In `counts COUNT` the worker must have
    /// spawned COUNT jobs. `ends-in-need SORT` spawns a job while memory is used up; this job and its children must all
    /// end.
    fn holds(&self, worker: &mut Worker<C::Seat, Task>, act: &str) -> bool
        requires { IsWorkerOf self.now.pool.now worker.old }
        ensures { IsWorkerOf self.now.pool.now worker.new }
    {
        let (name, rest) = act.split_once(' ').unwrap_or((act, ""));
        let mut words = rest.split_whitespace();
        let (first, second) = (number(words.next()), number(words.next()));
        match name {
            "spawn" => self.spawns(worker, 1, rest),
            "spawns" => {
                let (_, sort) = rest.split_once(' ').unwrap_or((rest, ""));
                self.spawns(worker, first, sort)
            }
            "try" => self.tries(worker, None, rest),
            "no-place" => self.tries(worker, Some(Refusal::NoPlace), rest),
            "no-memory" => self.tries(worker, Some(Refusal::Memory), rest),
            "wakes" | "awake" | "nobody" => {
                let id = ThreadId {
                    context: u32::try_from(first).unwrap_or(u32::MAX),
                    generation: second,
                };
                is_woken(self.pool.wake(self.rt, worker, id), name)
            }
            "orders" => match orders_of(self.board.alloc, rest, self.pool.cores) {
                Some(orders) => self.pool.order(self.rt, worker, orders).is_ok(),
                None => false,
            },
            "counts" => worker.tally().spawned == first,
            "ends-in-need" if self.pool.cores > 0 => self.ends_in_need(worker, rest),
            "works" | "turns" | "turns-in-need" => self.works(worker, name, first, second),
            _ => self.does(name) || self.is_so(name, first, second),
        }
    }

    /// Does one step that works for a core. Returns true if it has the result that it states.
    ///
    /// `works CORE` works until no job is left, or the worker must stop. `turns CORE COUNT` makes COUNT rounds (passes
    /// of the worker's loop), each of which must find something to do, or one that must find nothing if COUNT is 0.
    /// `turns-in-need CORE` makes a round that must fail because memory is refused.
    fn works(&self, worker: &mut Worker<C::Seat, Task>, name: &str, core: u64, rounds: u64) -> bool
        requires { IsWorkerOf self.now.pool.now worker.old }
        ensures { IsWorkerOf self.now.pool.now worker.new }
    {
        let core = u8::try_from(core).unwrap_or(u8::MAX);
        if core >= self.pool.cores {
            return false;
        }
        match (name, rounds) {
            ("works", _) => self.pool.work(self.rt, worker, core).is_ok(),
            ("turns", 0) => self.pool.turn(self.rt, worker, core) == Ok(false),
            ("turns", _) => self.turns(worker, core, rounds),
            _ => self.pool.turn(self.rt, worker, core) == Err(PoolFault::Memory),
        }
    }

    /// Returns true if each of `rounds` rounds (passes of the worker's loop) has found something to do.
    pub(crate) fn turns(&self, worker: &mut Worker<C::Seat, Task>, core: u8, rounds: u64) -> bool
        requires worker { IsWorkerOf self.now.pool.now worker.old }
        requires core { core < self.now.pool.now.cores }
        ensures worker { IsWorkerOf self.now.pool.now worker.new }
    {
        for _ in 0..rounds {
            if self.pool.turn(self.rt, worker, core) != Ok(true) {
                return false;
            }
        }
        true
    }

    /// Does one step that needs no worker and states no result. Returns false if there is no such step.
    ///
    /// `answer` counts an answer (an event for which jobs sleep), without waking any job. `keeps-open` keeps the pool
    /// open for more jobs, even if all have ended, and `stops` stops it.
    fn does(&self, name: &str) -> bool {
        match name {
            "answer" => self.board.answer(),
            "keeps-open" => self.pool.keep_open(),
            "stops" => self.pool.stop(),
            _ => return false,
        }
        true
    }

    /// Returns true if the pool and its jobs are as the step states.
    ///
    /// In `open CORE COUNT`, `closed` and `alone` (one job has the core for itself), the core must be in this state and
    /// have COUNT occupied slots. `lives`, `stepped` and `answered` state the number of jobs that have not ended, of
    /// jobs' steps, and of answers (events for which jobs sleep). `overslept` states the least and the greatest number
    /// of sleeps that have timed out although there was something to do.
    fn is_so(&self, name: &str, first: u64, second: u64) -> bool {
        match name {
            "lives" => self.pool.live() == first,
            "stepped" => self.board.steps.load(Ordering::SeqCst) == first,
            "overslept" => (first..=second).contains(&self.pool.overslept()),
            "answered" => self.board.answers() == first,
            _ => self.has(name, u8::try_from(first).unwrap_or(u8::MAX), second),
        }
    }

    fn has(&self, name: &str, core: u8, taken: u64) -> bool {
        if core >= self.pool.cores {
            return false;
        }
        let Some(now) = OccWord::from_word(self.pool.table.glance(self.rt, core)) else {
            return false;
        };
        let state = match (now.is_closed(), now.is_exclusive()) {
            (false, false) => "open",
            (true, false) => "closed",
            (false, true) => "alone",
            (true, true) => "closed and alone",
        };
        state == name && u64::from(now.count()) == taken
    }

    /// Returns true if `jobs` jobs of this sort were spawned.
    pub(crate) fn spawns(&self, worker: &mut Worker<C::Seat, Task>, jobs: u64, sort: &str) -> bool
        requires { IsWorkerOf self.now.pool.now worker.old }
        ensures { IsWorkerOf self.now.pool.now worker.new }
    {
        for _ in 0..jobs {
            let Some(task) = Task::of(sort, self.board) else {
                return false;
            };
            if self.pool.spawn(self.rt, worker, task).is_err() {
                return false;
            }
        }
        true
    }

    /// Returns true if the job is refused for the reason `wanted`, or spawned if that is `None`.
    pub(crate) fn tries(
        &self,
        worker: &mut Worker<C::Seat, Task>,
        wanted: Option<Refusal>,
        sort: &str,
    ) -> bool
        requires { IsWorkerOf self.now.pool.now worker.old }
        ensures { IsWorkerOf self.now.pool.now worker.new }
    {
        let Some(task) = Task::of(sort, self.board) else {
            return false;
        };
        match self.pool.try_spawn(self.rt, worker, task) {
            Ok(_) => wanted.is_none(),
            Err(refused) => wanted == Some(refused.why),
        }
    }

    /// Spawns a job while memory is used up, and makes rounds on core 0, with a little more memory after each refusal.
    ///
    /// Returns true if all jobs have ended, and a spawn and more than 20 rounds were refused memory.
    fn ends_in_need(&self, worker: &mut Worker<C::Seat, Task>, sort: &str) -> bool
        requires worker { IsWorkerOf self.now.pool.now worker.old }
        requires core { 0 < self.now.pool.now.cores }
        ensures worker { IsWorkerOf self.now.pool.now worker.new }
    {
        let Ok(mut hoard) = Hoard::take(self.board.alloc) else {
            return false;
        };
        let mut is_spawned = false;
        let (mut spawns, mut rounds) = (0u32, 0u32);
        for _ in 0..TRIES {
            if is_spawned && self.pool.live() == 0 {
                break;
            }
            let is_done = if is_spawned {
                let turned = self.pool.turn(self.rt, worker, 0).is_ok();
                rounds = rounds.saturating_add(u32::from(!turned));
                turned
            } else {
                is_spawned = self.spawns(worker, 1, sort);
                spawns = spawns.saturating_add(u32::from(!is_spawned));
                is_spawned
            };
            if !is_done {
                hoard.give_back(FEW);
            } else if hoard.take_again().is_err() {
                break;
            }
        }
        is_spawned && self.pool.live() == 0 && spawns > 0 && rounds > 20
    }
}

/// Returns true if `woken` is the result that the step with the name `wakes` states.
fn is_woken(woken: Option<Woken>, wakes: &str) -> bool {
    match woken {
        Some(Woken::Woken) => wakes == "wakes",
        Some(Woken::Already(_)) => wakes == "awake",
        Some(Woken::Gone) => wakes == "nobody",
        Some(Woken::Lost(_)) | None => false,
    }
}
