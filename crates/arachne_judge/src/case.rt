//! Checks the log of a run against all rules, in one pass.
//!
//! A worker writes an entry just before or just after the event that the entry reports. So the log may show the effect
//! of an event (a thread was moved or woken, or a core closed or opened) before the event itself. Core 0 must then
//! report the event before its next slice begins, and other cores must do so at once. A core *owes* a report that it
//! must still make.
ghost use Rattle.std.specs.Prelude.{◌≡◌, ◌≢◌, ◌<◌, ◌≤◌, ◌+◌, ℕ, true, min, slice_index_or, slice_set, IsSome, IsTrue};
ghost use Rattle.arachne_judge.specs.Breaks.{AreDue, broken_by_begin, broken_by_delay, broken_by_end, broken_by_moves, broken_by_order, broken_by_pull, broken_by_scan, broken_by_second_turn, broken_by_silence, broken_by_turn, core_of, is_early, judged, order_at, taken_by, thread_of};
ghost use Rattle.arachne_judge.specs.Rules.{broken_if, first_broken, number_of};
ghost use Rattle.arachne_judge.specs.declared.rules.Rule.TheVariants.{CoreZero};

use crate::cores::Core;
use crate::log::{Entry, Log, What};
use crate::rules::{Broken, Counts, Rule, Run, Verdict};
use crate::scans::{Scans, TurnFindings};
use crate::threads::ThreadFacts;
use arachne_core::ThreadId;
use arachne_policy::{CoreOrder, OrderKind};
use arachne_workers::{SliceEnd, WorkerEvent};
use std::alloc::{AllocError, Global};

/// The number of moves of threads between cores that may have no log entry, besides one for each `TURNS_PER_UNTOLD`
/// times that a thread continued.
///
/// Rarely, a thread leaves its slot just before a worker moves it away. The worker then moves the next thread of that
/// slot, and doesn't report it.
const UNTOLD: u64 = 2;

const TURNS_PER_UNTOLD: u64 = 64;

#[derive(Drop)]
struct Case<'r> {
    run: Run<'r>,
    at: usize,
    cores: Vec<Core>,
    /// For each context, the facts about its last thread.
    threads: Vec<Option<ThreadFacts>>,
    root: Option<ThreadId>,
    is_over: bool,
    /// The number of orders that core 0 has reported as carried out.
    applied: usize,
    ended: u64,
    /// The number of slices that other cores had ended, each with a later entry of its core, when core 0 last reported
    /// something other than a slice, a turn, or what it did to cores.
    counted: u64,
    owes: bool,
    untold: u64,
    /// The threads that have continued after a wait before a log entry reported their wake.
    ///
    /// There is room for one thread fewer than there are cores.
    unwoken: Vec<Option<ThreadId>>,
    scans: Scans,
    counts: Counts,
    broken: Option<Broken>,
    steps: u64,
}

/// Checks the log of a run. Returns the first rule that the log breaks, and how often each rule was checked.
pub fn judge(alloc: Global, log: &Log, run: Run<'_>) -> Result<Verdict, AllocError> {
    let mut case = Case::new(alloc, run)?;
    for at in 0..log.count() as usize {
        let Some(entry) = log.entry(at) else { break };
        case.at = at;
        case.look(entry);
    }
    case.settle();
    let is_unwoken = case.unwoken.iter().any(|id| id.is_some());
    case.breaks_if(Rule::Waits, is_unwoken);
    Ok(Verdict {
        counts: case.counts,
        broken: case.broken,
        steps: case.steps,
    })
}

impl<'r> Case<'r> {
    fn new(alloc: Global, run: Run<'r>) -> Result<Case<'r>, AllocError> {
        let count = usize::from(run.cores);
        Ok(Case {
            run,
            at: 0,
            cores: vec![in alloc; Core::default(); count]?,
            threads: vec![in alloc; None; count * usize::from(run.slots)]?,
            root: None,
            is_over: false,
            applied: 0,
            ended: 0,
            counted: 0,
            owes: false,
            untold: 0,
            unwoken: vec![in alloc; None; count.saturating_sub(1)]?,
            scans: Scans::new(run),
            counts: Counts::new(),
            broken: None,
            steps: 0,
        })
    }

    fn core(&self, core: u8) -> Core
        ensures { result ≡ core_of self.now core }
    {
        self.cores
            .get(usize::from(core))
            .copied()
            .unwrap_or_default()
    }

    fn set_core(&mut self, core: u8, known: Core)
        ensures { self.new ≡ record self.old { cores = self.new.cores } }
    {
        if let Some(place) = self.cores.get_mut(usize::from(core)) {
            *place = known;
        }
    }

    /// Returns the facts about the thread, if a worker has taken it before.
    fn thread(&self, id: ThreadId) -> Option<ThreadFacts>
        ensures { result ≡ thread_of self.now id }
    {
        let thread = (*self.threads.get(id.context as usize)?)?;
        if thread.id == id { Some(thread) } else { None }
    }

    /// Returns the facts about the thread that the worker of `core` took last.
    fn taken(&self, core: u8) -> Option<ThreadFacts>
        ensures { result ≡ taken_by self.now core }
    {
        self.thread(self.core(core).turn?)
    }

    fn set_thread(&mut self, thread: ThreadFacts)
        ensures { self.new.broken ≡ self.old.broken }
    {
        if let Some(place) = self.threads.get_mut(thread.id.context as usize) {
            *place = Some(thread);
        }
    }

    fn counts(&mut self, rule: Rule)
        ensures same { self.new ≡ record self.old { counts = self.new.counts } }
        ensures counted { self.new.counts.counts ≡ slice_set self.old.counts.counts (number_of rule) (min (slice_index_or self.old.counts.counts (number_of rule) 0 + 1) u64.MAX) }
    {
        self.counts.add(rule, 1);
    }

    fn breaks(&mut self, rule: Rule)
        ensures { self.new ≡ record self.old { broken = first_broken self.old.broken (record { rule = rule; at = self.old.at }) } }
    {
        if self.broken.is_none() {
            self.broken = Some(Broken { rule, at: self.at });
        }
    }

    fn breaks_if(&mut self, rule: Rule, is_broken: bool)
        ensures { self.new ≡ record self.old { broken = broken_if is_broken self.old.broken (record { rule = rule; at = self.old.at }) } }
    {
        if is_broken {
            self.breaks(rule);
        }
    }

    fn judges(&mut self, rule: Rule, is_broken: bool)
        ensures { self.new ≡ record self.old { counts = self.new.counts; broken = broken_if is_broken self.old.broken (record { rule = rule; at = self.old.at }) } }
    {
        self.counts(rule);
        self.breaks_if(rule, is_broken);
    }

    fn look(&mut self, entry: Entry) {
        let Entry { core, what } = entry;
        match what {
            What::Slice(nth) => self.slice(core, nth),
            What::Turn(id, is_alone) => self.turn(core, id, is_alone),
            What::Told(WorkerEvent::Applied(orders)) => self.applied(core, orders),
            What::Told(WorkerEvent::MovedAway(receivers)) => self.moved_away(core, receivers),
            What::Told(event) => self.event(core, event),
        }
        let mut known = self.core(core);
        known.last = self.at;
        known.ends_slice = matches!(what, What::Told(WorkerEvent::Sliced(_, _)));
        known.was_closed = known.is_closed;
        self.set_core(core, known);
    }

    /// Checks a report of an event other than what core 0 did to cores. No rule concerns the events that have no arm.
    fn event(&mut self, core: u8, event: WorkerEvent) {
        match event {
            WorkerEvent::Sliced(steps, end) => self.sliced(core, steps, end),
            WorkerEvent::Woken(id, _) => self.woken(id),
            WorkerEvent::Pulled(id, from) => self.pulled(core, id, from, None),
            WorkerEvent::Helps(id, of) => self.pulled(core, id, of, Some(of)),
            WorkerEvent::Spilled => self.spilled(),
            WorkerEvent::Parks => self.parks(core),
            WorkerEvent::Unparked => self.unparked(core),
            _ => {}
        }
        if core == 0 {
            self.counted = self.counted_elsewhere();
        }
    }

    /// Returns the number of slices that other cores than 0 have ended, each with a later entry of its core.
    fn counted_elsewhere(&self) -> u64 {
        let mut counted = 0u64;
        for core in 1..self.run.cores {
            counted = counted.saturating_add(self.core(core).counted());
        }
        counted
    }

    fn slice(&mut self, core: u8, nth: u64) {
        self.begins(core, nth);
        if core == 0 {
            self.settle();
            self.look_due();
        }
    }

    /// Checks a report that `core` is about to begin the slice with the number `nth`.
    fn begins(&mut self, core: u8, nth: u64)
        ensures { self.new.broken ≡ broken_by_begin self.old core nth }
    {
        let mut known = self.core(core);
        self.judges(Rule::Numbers, nth != known.next);
        let taken = self.taken(core);
        let is_in_hand = taken.is_some_and(|thread| thread.is_in_hand(core));
        self.judges(Rule::InHand, known.is_in_slice || !is_in_hand);
        if let Some(mut thread) = taken {
            thread.is_in_slice = true;
            self.set_thread(thread);
        }
        known.next = nth.saturating_add(1);
        known.is_in_slice = true;
        self.set_core(core, known);
    }

    /// Checks, when core 0 begins a slice, that no order is due.
    fn look_due(&mut self)
        ensures { self.new.broken ≡ broken_by_delay self.old }
    {
        let Some(order) = self.run.orders.get(self.applied) else {
            return;
        };
        let ended = self.counted.saturating_add(self.core(0).ended);
        self.judges(Rule::Due, order.after <= ended);
    }

    /// Records a broken rule for each event that the log has shown by its effect, but not reported.
    ///
    /// Called when core 0 begins a slice, and at the end of the log.
    fn settle(&mut self) {
        if !self.owes {
            return;
        }
        self.owes = false;
        for core in 0..self.run.cores {
            self.settle_core(core);
        }
    }

    /// Records a broken rule for each event that the log has shown by its effect on `core`, but not reported.
    fn settle_core(&mut self, core: u8)
        ensures { self.new.broken ≡ broken_by_silence self.old core }
    {
        let mut known = self.core(core);
        if known.owes_move {
            self.untold = self.untold.saturating_add(1);
            let turns = self.counts.of(Rule::OwnCore);
            let most = UNTOLD.saturating_add(turns / TURNS_PER_UNTOLD);
            self.breaks_if(Rule::OwnCore, self.run.has_exclusive || self.untold > most);
        }
        self.breaks_if(Rule::Parks, known.owes_close || known.owes_return);
        let granted = known.grants.saturating_add(u64::from(self.is_over));
        self.breaks_if(Rule::Unparks, known.unparks > granted);
        (known.owes_move, known.owes_close, known.owes_return) = (false, false, false);
        self.set_core(core, known);
    }

    /// Checks that the worker of `core` may take the thread.
    fn may_take(&mut self, core: u8, id: ThreadId)
        ensures { self.new.broken ≡ broken_by_turn self.old core id }
    {
        let known = self.core(core);
        let is_first_elsewhere = self.root.is_none() && core > 0;
        self.breaks_if(Rule::InHand, known.is_in_slice || is_first_elsewhere);
        self.breaks_if(Rule::Alone, known.alone.is_some_and(|other| other != id));
    }

    fn turn(&mut self, core: u8, id: ThreadId, is_alone: bool) {
        self.may_take(core, id);
        let mut known = self.core(core);
        if self.root.is_none() {
            self.root = Some(id);
        }
        if is_alone {
            self.counts(Rule::Alone);
            known.alone = Some(id);
        }
        known.turn = Some(id);
        let mut thread = ThreadFacts::new(id, core, self.at);
        let before = self.thread(id);
        if let Some(before) = before {
            thread.woken = self.waits(before);
            if before.pulled == Some(core) {
                thread.home = before.home;
            }
            self.look_where(&mut known, core, before);
        }
        self.scan(id, before.is_none());
        self.set_thread(thread);
        self.set_core(core, known);
    }

    /// Checks that a thread that was taken before may be taken on `core`.
    fn look_where(&mut self, known: &mut Core, core: u8, before: ThreadFacts)
        ensures { self.new.broken ≡ broken_by_second_turn self.old before }
    {
        self.breaks_if(Rule::InHand, before.has_ended() || before.is_in_slice);
        self.counts(Rule::OwnCore);
        if before.pulled == Some(core) {
            return;
        }
        if before.place() != core {
            known.owes_move |= known.moved <= before.turned;
        } else {
            known.owes_return |= before.left > 0 && known.moved <= before.left;
        }
        self.owes |= known.owes_move || known.owes_return;
    }

    /// Checks that a thread that has waited was woken, and returns the number of its wakes for which it has not
    /// continued yet.
    ///
    /// The worker of another core that has woken the thread may report this just after the thread has continued.
    fn waits(&mut self, before: ThreadFacts) -> u64 {
        if !matches!(before.end, SliceEnd::AwaitsChild | SliceEnd::Awaits(_)) {
            return before.woken;
        }
        self.counts(Rule::Waits);
        if before.woken == 0 && !self.replace_unwoken(None, Some(before.id)) {
            self.breaks(Rule::Waits);
        }
        before.woken.saturating_sub(1)
    }

    fn replace_unwoken(&mut self, from: Option<ThreadId>, to: Option<ThreadId>) -> bool {
        for place in self.unwoken.iter_mut() {
            if *place == from {
                *place = to;
                return true;
            }
        }
        false
    }

    /// Checks that the threads of one scan (pass over the slots) are in ascending order of slots, and that no child
    /// waits while a slot is free.
    fn scan(&mut self, id: ThreadId, is_first: bool) {
        let last = self.scans.last();
        let goes_on = match last.and_then(|last| *self.threads.get(last as usize)?) {
            Some(thread) => thread.end == SliceEnd::GoesOn,
            None => false,
        };
        let found = self.scans.turn(id.context, goes_on, is_first);
        self.scanned(found);
    }

    /// Records the rules that are broken as a scan reaches a thread.
    fn scanned(&mut self, found: TurnFindings)
        ensures { self.new.broken ≡ broken_by_scan self.old found.is_downward found.was_free }
    {
        if found.is_judged {
            self.counts(Rule::Upwards);
        }
        self.breaks_if(Rule::Upwards, found.is_downward);
        self.breaks_if(Rule::Places, found.was_free);
    }

    fn sliced(&mut self, core: u8, steps: u32, end: SliceEnd)
        ensures { self.new.broken ≡ broken_by_end self.old core steps }
    {
        self.judges(Rule::Quantum, steps > self.run.quantum);
        self.steps = self.steps.saturating_add(u64::from(steps));
        let mut known = self.core(core);
        self.breaks_if(Rule::InHand, !known.is_in_slice);
        known.is_in_slice = false;
        known.ended = known.ended.saturating_add(1);
        self.ended = self.ended.saturating_add(1);
        if let Some(mut thread) = self.taken(core) {
            thread.is_in_slice = false;
            thread.end = end;
            self.set_thread(thread);
            if end == SliceEnd::Ended {
                self.scans.ended();
                if known.alone == Some(thread.id) {
                    known.alone = None;
                }
                if self.root == Some(thread.id) {
                    self.is_over = true;
                }
            }
        }
        self.set_core(core, known);
    }

    fn woken(&mut self, id: ThreadId) {
        if self.run.has_exclusive {
            self.counts(Rule::Stays);
        }
        if !self.replace_unwoken(Some(id), None)
            && let Some(mut thread) = self.thread(id)
        {
            thread.woken = thread.woken.saturating_add(1);
            self.set_thread(thread);
        }
    }

    /// Checks a report that the worker of `core` has moved a thread to `core` from the core `from`.
    ///
    /// If `home` is given, the worker only runs the thread next, and the thread stays in its slot on the core `home`.
    fn pulled(&mut self, core: u8, id: ThreadId, from: u8, home: Option<u8>)
        ensures { self.new.broken ≡ broken_by_pull self.old core from }
    {
        if self.run.has_exclusive {
            self.breaks(Rule::Stays);
        }
        self.judges(Rule::Pulls, from == core);
        if let Some(mut thread) = self.thread(id) {
            thread.pulled = Some(core);
            thread.home = home;
            self.set_thread(thread);
        }
    }

    /// Checks a report that the worker of `core` parks (sleeps until the core is opened).
    ///
    /// Since the worker's last entry, the core must have been closed and empty at some time. Core 0 may report only
    /// later that it closed the core, or that it moved threads away.
    fn parks(&mut self, core: u8) {
        self.counts(Rule::Parks);
        let mut known = self.core(core);
        known.owes_close |= !known.was_closed;
        self.owes |= known.owes_close;
        self.set_core(core, known);
        for place in self.threads.iter_mut() {
            if let Some(thread) = place
                && thread.place() == core
                && !thread.has_ended()
            {
                thread.left = known.last.saturating_add(1);
            }
        }
    }

    fn spilled(&mut self) {
        if self.scans.spilled() {
            self.counts(Rule::Places);
        }
    }

    fn unparked(&mut self, core: u8) {
        self.counts(Rule::Unparks);
        let mut known = self.core(core);
        known.unparks = known.unparks.saturating_add(1);
        self.owes = true;
        self.set_core(core, known);
    }

    /// Checks an entry, which only core 0 may write, that it has carried out `orders` orders so far.
    fn applied(&mut self, core: u8, orders: usize)
        ensures another { core ≢ 0 → self.new.broken ≡ judged self.old CoreZero true self.old.broken }
        ensures due { core ≡ 0 → AreDue self.old orders → self.new.broken ≡ self.old.broken }
        ensures early { (nth : ℕ) → self.old.applied ≤ nth → nth < orders → IsTrue (is_early self.old (order_at self.old nth)) → IsSome self.new.broken }
    {
        self.judges(Rule::CoreZero, core > 0);
        for nth in self.applied..orders {
            let Some(order) = self.run.orders.get(nth) else {
                self.breaks(Rule::Due);
                break;
            };
            self.apply(*order);
        }
        self.applied = orders;
    }

    /// Checks that the order is due, and carries it out.
    fn apply(&mut self, order: CoreOrder)
        ensures { self.new ≡ record self.old { cores = self.new.cores; counts = self.new.counts; broken = broken_by_order self.old order } }
    {
        self.judges(Rule::Due, self.ended < order.after);
        let of = u8::try_from(order.core).unwrap_or(u8::MAX);
        let mut known = self.core(of);
        if order.kind == OrderKind::Grant {
            known.grants = known.grants.saturating_add(u64::from(known.is_closed));
            known.is_closed = false;
        } else {
            known.is_closed = true;
            known.was_closed = true;
            known.owes_close = false;
        }
        self.set_core(of, known);
    }

    /// Checks an entry, which only core 0 may write, that threads were moved from closed cores to `receivers` (a bit
    /// mask).
    fn moved_away(&mut self, core: u8, receivers: u64)
        ensures { self.new.broken ≡ broken_by_moves self.old core }
    {
        self.judges(Rule::CoreZero, core != 0);
        for receiver in 0..self.run.cores {
            if receivers.checked_shr(u32::from(receiver)).unwrap_or(0) & 1 == 1 {
                let mut known = self.core(receiver);
                known.moved = self.at.saturating_add(1);
                known.owes_move = false;
                known.owes_return = false;
                self.set_core(receiver, known);
            }
        }
    }
}
