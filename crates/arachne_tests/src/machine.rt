//! Tests of threads that can be interrupted after any step: expected outcomes (results), and refused memory.
mod family;
mod shortage;
mod told;

use self::family::{Round, Way, parts_of};
use self::told::told;
use arachne_lang::{Program, parse};
use arachne_machine::run_alone;
use std::alloc::Global;

/// Returns the checked program of an expression, with `count` ledgers and `count` locks.
fn program(alloc: Global, count: u8, expression: &str) -> Option<Program> {
    let text = format!(in alloc; "arachne 1\nledgers {count}\nlocks {count}\n{expression}\n").ok()?;
    parse(alloc, text.as_bytes()).ok()
}

const COUNTING: &str = "(sweep add 1 (num 0) (num 8) (hold 0 (tally 0 (num 5) (num 1))))";

/// The number of ledgers and of locks, the program's expression, the way in which children run, the sum of the tags of
/// the threads that ask for a lock, and the text of the outcome.
type Row = (u8, &'static str, Way, u64, &'static str);

/// A child has the tag 0 when it is forked, and 7 if it begins inside its parent's slot at once, unless the test sets
/// another.
const ROWS: &[Row] = &[
    (
        0,
        "(fork x (fork x (num 1) (num 10) (var 0)) (fork x (num 100) (num 5) (var 0)) (add (var 0) (var 1)))",
        Way::AtFork,
        0,
        "101 [] []9-[] [1]11+[] [0]10+[] [0, 0]12+[]",
    ),
    (
        1,
        COUNTING,
        Way::AtFork,
        100,
        "8 [40] []9-[1] [2]12+[1] [1]11+[1] [1, 0]13+[1] [0]10+[1] [0, 1]15+[1] [0, 0]14+[1] [0, 0, 0]16+[1]",
    ),
    (
        1,
        COUNTING,
        Way::AtJoin,
        9,
        "8 [40] []9-[1] [2]0+[1] [1]0+[1] [1, 0]0+[1] [0]0+[1] [0, 1]0+[1] [0, 0]0+[1] [0, 0, 0]0+[1]",
    ),
    (
        1,
        COUNTING,
        Way::Alone,
        9,
        "8 [40] []9-[1] [2]0-[1] [1]0-[1] [1, 0]0-[1] [0]0-[1] [0, 1]0-[1] [0, 0]0-[1] [0, 0, 0]0-[1]",
    ),
    (
        0,
        "(fork n (num 2) (fork x (num 3) (num 4) (add (var 0) (var 1))) (add (var 0) (var 1)))",
        Way::AloneIfExclusive,
        0,
        "9 [] []9-[] [1]0-[] [0]7+[]",
    ),
];

/// Returns the text of the outcome of an expression's program.
///
/// If `is_short` is true, there is no memory at the beginning of each call, and the call is repeated with a little more
/// each time.
fn told_of(
    alloc: Global,
    count: u8,
    expression: &str,
    round: &mut Round,
    is_short: bool,
) -> Option<String> {
    let program = program(alloc, count, expression)?;
    told(alloc, &parts_of(alloc, &program, round, is_short)?)
}

fn is_right(alloc: Global, row: &Row, budget: u32, is_short: bool) -> Option<bool> {
    let &(count, expression, way, asked, expected) = row;
    let mut round = Round::new(way, budget, 10);
    let text = told_of(alloc, count, expression, &mut round, is_short)?;
    let is_refused = round.memory.refused() > 3;
    Some(text.as_str() == expected && round.asked == asked && is_refused == is_short)
}

fn first_wrong(alloc: Global, is_short: bool) -> Option<(usize, u32)> {
    for (k, row) in ROWS.iter().enumerate() {
        for budget in [1, 2, 7, 1000] {
            if is_right(alloc, row, budget, is_short) != Some(true) {
                return Some((k, budget));
            }
        }
    }
    None
}

#[test]
fn threads_are_told(rt: HostRuntime) {
    assert!(rt; first_wrong(rt.alloc(), false) == None);
}

fn is_text(text: Option<String>, expected: &str) -> bool {
    match text {
        Some(text) => text.as_str() == expected,
        None => false,
    }
}

/// The first tag of a child, and the text of the outcome of `COUNTING`. The lines of each row are in several lists,
/// since the tags of one list have the same two highest bits.
const FAR_TAGS: &[(u64, &str)] = &[
    (
        4_611_686_018_427_387_901,
        "8 [40] []9-[1] [2]4611686018427387903+[1] [1]4611686018427387902+[1] [1, 0]4611686018427387904+[1] [0]4611686018427387901+[1] [0, 1]4611686018427387906+[1] [0, 0]4611686018427387905+[1] [0, 0, 0]4611686018427387907+[1]",
    ),
    (
        18_446_744_073_709_551_613,
        "8 [40] []9-[1] [2]18446744073709551615+[1] [1]18446744073709551614+[1] [1, 0]0+[1] [0]18446744073709551613+[1] [0, 1]2+[1] [0, 0]1+[1] [0, 0, 0]3+[1]",
    ),
];

fn are_far_tags_told(alloc: Global) -> bool {
    for &(first, expected) in FAR_TAGS {
        let mut round = Round::new(Way::AtFork, 7, first);
        if !is_text(told_of(alloc, 1, COUNTING, &mut round, false), expected) {
            return false;
        }
    }
    true
}

#[test]
fn tags_of_any_size_are_told(rt: HostRuntime) {
    assert!(rt; are_far_tags_told(rt.alloc()));
}

/// An addition takes three steps, so a budget of one step must be used up twice before it ends.
#[test]
fn a_budget_is_used_up_before_the_end(rt: HostRuntime) {
    let mut round = Round::new(Way::AtFork, 1, 10);
    let text = told_of(rt.alloc(), 0, "(add (num 1) (num 2))", &mut round, false);
    assert!(rt; is_text(text, "3 [] []9-[]") && round.budgets == 2);
}

/// The lines that a thread of the program collects from its children are in up to 390 lists.
const LISTS: &str =
    "(fold (num 0) (num 3) (num 0) (fork n (fold (num 0) (num 130) (num 0) (fork n (sweep add 1 (num 0) (num 1010) (num 1)) (num 0) (add (var 3) (var 4)))) (num 0) (add (var 1) (var 2))))";

fn threads_of(alloc: Global, expression: &str) -> Option<usize> {
    let program = program(alloc, 0, expression)?;
    let meaning = run_alone(alloc, &program, 1000).ok()?;
    Some(meaning.threads.as_slice().len())
}

#[test]
fn lines_behind_any_number_of_lists(rt: HostRuntime) {
    assert!(rt; threads_of(rt.alloc(), LISTS) == Some(393_904));
}
