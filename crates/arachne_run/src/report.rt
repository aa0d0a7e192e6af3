//! The report of a run: the program's value, ledgers and threads, and the history of its locks. It is made only if all
//! threads have different tags (numbers in the run), and the locks' histories match the threads' lines.
ghost use Rattle.std.specs.Prelude.{◌≡◌, ◌≢◌, ◌⊎◌, ℕ, ◌<◌, ◌≤◌, [], false, true, All, Contains, Err, IfErr, IfNone, IfOk, IfSome, Ok, OnOk, List, length, map, slice_index, slice_index_or};
ghost use Rattle.arachne_program.specs.Program.{source_of};
ghost use Rattle.arachne_program.specs.Meaning.{meaning_of};
ghost use Rattle.arachne_sleep.specs.declared.event.LockEvent.TheVariants.{Grant};
ghost use Rattle.arachne_sleep.specs.declared.who.Who.{Who};
ghost use Rattle.arachne_run.specs.Distinct.{AreDistinct, AreMarksOf, HasClash};
ghost use Rattle.arachne_run.specs.Histories.{GrantsAreHolds, IsGrantedAsHeld, grants_to};
ghost use Rattle.arachne_run.specs.declared.fault.WorkerFault.TheVariants.{Ledgers, Memory, Threads};
ghost use Rattle.arachne_run.specs.Reports.{histories_in, meaning_in, tags_of};

use crate::fault::WorkerFault;
use crate::resources::Remains;
use arachne_machine::{DetachedOutcome, LineView, ThreadLines};
use arachne_program::Sequence;
use arachne_sleep::{History, LockEvent};
use std::alloc::{AllocError, Global};

/// The report of a program that has ended.
#[derive(Debug, Drop)]
pub struct Report {
    /// The value of the program's root thread.
    pub value: u64,
    /// For each ledger (shared counter), the sum of the amounts that were added, modulo 2^64.
    pub totals: Sequence<u64>,
    /// One line for each of the program's threads, the root's first.
    pub threads: ThreadLines,
    /// For each lock, the history of its requests, grants and releases, the oldest first.
    pub histories: Vec<History>,
    /// The number of orders to open or close a core that the run has carried out.
    pub applied: usize,
}

impl Report {
    /// Makes the report from the root's outcome, the sums of the ledgers, and the histories of the locks.
    ///
    /// Returns an error if the outcome has other sums, if two threads have the same tag, or if a lock was not granted
    /// to each thread as often as the thread's line says.
    pub(crate) fn of(
        alloc: Global,
        outcome: DetachedOutcome,
        remains: Remains,
        applied: usize,
    ) -> Result<Report, WorkerFault>
        requires { outcome.name ≡ [] }
        ensures meaning { IfOk result (λ report. meaning_in report ≡ meaning_of (source_of outcome.program)) }
        ensures tags { IfOk result (λ report. AreDistinct (tags_of report)) }
        ensures totals { IfOk result (λ report. report.totals ≡ remains.sums.items) }
        ensures histories { IfOk result (λ report. report.histories ≡ remains.histories) }
        ensures grants { IfOk result (λ report. GrantsAreHolds report.threads (histories_in report)) }
        ensures applied { IfOk result (λ report. report.applied ≡ applied) }
        ensures fault { IfErr result (λ fault. ((fault ≡ Memory) ⊎ (fault ≡ Threads)) ⊎ (fault ≡ Ledgers)) }
        ensures sums { result ≡ Err Ledgers → outcome.sums ≢ remains.sums.items }
        ensures threads { result ≡ Err Threads → outcome.sums ≡ remains.sums.items }
    {
        let Ok(parts) = outcome.into_parts() else {
            return Err(WorkerFault::Memory);
        };
        let Remains { sums, histories } = remains;
        if parts.sums.as_slice() != sums.as_slice() {
            return Err(WorkerFault::Ledgers);
        }
        let Some(marks) = marks_of(alloc, &parts.lines)? else {
            return Err(WorkerFault::Threads);
        };
        if !are_grants_holds(alloc, &parts.lines, marks.as_slice(), histories.as_slice())? {
            return Err(WorkerFault::Threads);
        }
        Ok(Report {
            value: parts.value,
            totals: Sequence::from(sums),
            threads: parts.lines,
            histories,
            applied,
        })
    }
}

/// Returns a list that is true at each thread's tag, or `None` if two tags are equal or one is `u64::MAX`, which has no
/// next number and so can't be an index.
fn marks_of(alloc: Global, threads: &ThreadLines) -> Result<Option<Vec<bool>>, AllocError>
    ensures distinct { IfOk result (λ found. IfSome found (λ marks. AreDistinct (map (λ line. line.tag) threads.now))) }
    ensures marks { IfOk result (λ found. IfSome found (λ marks. AreMarksOf (map (λ line. line.tag) threads.now) marks.items)) }
    ensures none { IfOk result (λ found. IfNone found (HasClash (map (λ line. line.tag) threads.now))) }
{
    let mut marks = Vec::new(alloc);
    marks.resize(threads.len(), false)?;
    for line in threads.iter() {
        let tag = tag_index(&line);
        if tag == usize::MAX {
            return Ok(None);
        }
        if tag >= marks.len() {
            marks.resize(tag + 1, false)?;
        }
        if marks[tag] {
            return Ok(None);
        }
        marks[tag] = true;
    }
    Ok(Some(marks))
}

#[inline(always)]
fn tag_index(line: &LineView<'_>) -> usize
    ensures { result ≡ line.now.tag }
{
    line.tag() as usize
}

/// Returns true if each lock was granted to each thread as often as the thread's line says, and to no other thread.
fn are_grants_holds(
    alloc: Global,
    threads: &ThreadLines,
    marks: &[bool],
    histories: &[History],
) -> Result<bool, AllocError>
    requires { AreMarksOf (map (λ line. line.tag) threads.now) marks.now }
    ensures { result ≡ Ok true → GrantsAreHolds threads.now (map (λ history. history.items) histories.now) }
{
    for lock in 0..histories.len() {
        if !is_granted_as_held(alloc, threads, marks, lock, &histories[lock])? {
            return Ok(false);
        }
    }
    Ok(true)
}

/// Returns true if the lock of this number was granted to each thread as often as the thread's line says, and to no
/// other. `marks` is true at each thread's tag.
fn is_granted_as_held(
    alloc: Global,
    threads: &ThreadLines,
    marks: &[bool],
    lock: usize,
    history: &History,
) -> Result<bool, AllocError>
    requires { AreMarksOf (map (λ line. line.tag) threads.now) marks.now }
    ensures { result ≡ Ok true → IsGrantedAsHeld lock threads.now history.now.items }
{
    let Some(grants) = grants_by_tag(alloc, marks, history)? else {
        return Ok(false);
    };
    for line in threads.iter() {
        let held = number_at(line.holds(), lock);
        if number_at(grants.as_slice(), line.tag() as usize) != held {
            return Ok(false);
        }
    }
    Ok(true)
}

/// Returns the number of the lock's grants to each thread, by tag, or `None` if a grant went to a tag that isn't in
/// `marks`.
fn grants_by_tag(
    alloc: Global,
    marks: &[bool],
    history: &History,
) -> Result<Option<Vec<u64>>, AllocError>
    ensures grants { IfOk result (λ found. IfSome found (λ grants. (tag : ℕ) → slice_index grants.items tag ≡ grants_to tag history.now.items)) }
    ensures marked { IfOk result (λ found. IfSome found (λ grants. (who : Who) → Contains history.now.items (Grant who) → slice_index_or marks.now who.tag false ≡ true)) }
{
    let mut grants = Vec::new(alloc);
    grants.resize(marks.len(), 0)?;
    for event in history.iter() {
        if let LockEvent::Grant(who) = event {
            let tag = who.tag as usize;
            if tag >= grants.len() || !marks[tag] {
                return Ok(None);
            }
            grants[tag] += 1;
        }
    }
    Ok(Some(grants))
}

/// Returns the number at `index`. A list without that index has no grant or hold to count there, so 0.
fn number_at(numbers: &[u64], index: usize) -> u64
    ensures { result ≡ slice_index numbers.now index }
{
    match numbers.get(index) {
        Some(number) => *number,
        None => 0,
    }
}
