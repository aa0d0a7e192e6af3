//! Checks that a program is valid: its nesting depth, its size, and each node in the order of the program's text.
ghost use Rattle.std.specs.Prelude.{◌≡◌, ◌+◌, ◌-◌, ◌*◌, ◌^◌, ◌<◌, ◌≤◌, ◌↔◌, ◌++◌, IsTrue, IfOk, SomeIff, length, sum_by, take};
ghost use Rattle.arachne_program.specs.Program.{tree_of, source_of};
ghost use Rattle.arachne_program.specs.Nesting.{nesting};
ghost use Rattle.arachne_program.specs.Checked.{node_faults, first_fault, node_count, verdict_of};
ghost use Rattle.arachne_lang.specs.Judgement.{judged, KeepsLimits};

use arachne_program::{CheckFault, Expr, Program};

/// The greatest nesting depth of an expression. The root is at depth 1.
const MOST_LEVELS: u32 = 64;

const MOST_NODES: u64 = 4_096;

const MOST_ARRAYS: usize = 64;

const MOST_ITEMS: usize = 1_000_000;

const MOST_LEDGERS: u8 = 16;

const MOST_LOCKS: u8 = 16;

/// Checks that `program` is valid. Returns the first fault as the error.
///
/// Checks the nesting depth first, then the size, then the nodes in the order of the program's text. Allocates no
/// memory. The recursion goes at most 64 levels deep, however deep the program is nested.
pub fn check(program: &Program) -> Result<(), CheckFault>
    ensures { result ≡ verdict_of (source_of program.now) }
{
    if !nests_within(&program.root, MOST_LEVELS) {
        return Err(CheckFault::Nesting);
    }
    if !is_within_limits(program) {
        return Err(CheckFault::OverLimit);
    }
    let scope = Scope {
        program,
        within: false,
        bound: 0,
    };
    scope.check(&program.root, 0)?;
    Ok(())
}

/// Returns true if `expr` is nested at most `levels` deep, which it checks without looking at any deeper level.
#[tactic(auto, using(crate::proofs::NodesJudged::nesting_positive))]
fn nests_within(expr: &Expr, levels: u32) -> bool
    ensures { IsTrue result ↔ (nesting (tree_of expr.now) ≤ levels) }
{
    if levels == 0 {
        return false;
    }
    let below = levels - 1;
    match expr {
        Expr::Num(_) | Expr::Var(_) | Expr::Len(_) => true,
        Expr::Item(_, a) | Expr::Hold(_, a) => nests_within(a, below),
        Expr::Binary(_, a, b) | Expr::Let(a, b) | Expr::Tally(_, a, b) => {
            nests_within(a, below) && nests_within(b, below)
        }
        Expr::If(a, b, c) | Expr::Fork(_, a, b, c) | Expr::Sweep(_, _, a, b, c) => {
            nests_within(a, below) && nests_within(b, below) && nests_within(c, below)
        }
        Expr::Fold(a, b, c, d) => {
            nests_within(a, below)
                && nests_within(b, below)
                && nests_within(c, below)
                && nests_within(d, below)
        }
    }
}

fn is_within_limits(program: &Program) -> bool
    ensures { IsTrue result ↔ KeepsLimits program.now }
{
    if program.ledgers > MOST_LEDGERS
        || program.locks > MOST_LOCKS
        || program.arrays.len() > MOST_ARRAYS
    {
        return false;
    }
    have_items_within(program.arrays.as_slice(), MOST_ITEMS)
        && nodes_left(&program.root, MOST_NODES).is_some()
}

fn have_items_within(arrays: &[Vec<u64>], items: usize) -> bool
    ensures { IsTrue result ↔ (sum_by (λ array. length array.items) arrays.now ≤ items) }
{
    let mut left = items;
    for array in arrays {
        if left < array.len() {
            return false;
        }
        left -= array.len();
    }
    true
}

/// Returns `nodes` minus the number of nodes in `expr`, or `None` if `expr` has more.
///
/// Stops at the first node that is too many.
#[tactic(auto, using(crate::proofs::NodesJudged::node_count_positive))]
fn nodes_left(expr: &Expr, nodes: u64) -> Option<u64>
    ensures { SomeIff result (node_count (tree_of expr.now) ≤ nodes) (nodes - node_count (tree_of expr.now)) }
{
    let left = nodes.checked_sub(1)?;
    match expr {
        Expr::Num(_) | Expr::Var(_) | Expr::Len(_) => Some(left),
        Expr::Item(_, a) | Expr::Hold(_, a) => nodes_left(a, left),
        Expr::Binary(_, a, b) | Expr::Let(a, b) | Expr::Tally(_, a, b) => {
            nodes_left(b, nodes_left(a, left)?)
        }
        Expr::If(a, b, c) | Expr::Fork(_, a, b, c) | Expr::Sweep(_, _, a, b, c) => {
            nodes_left(c, nodes_left(b, nodes_left(a, left)?)?)
        }
        Expr::Fold(a, b, c, d) => {
            nodes_left(d, nodes_left(c, nodes_left(b, nodes_left(a, left)?)?)?)
        }
    }
}

#[derive(Clone, Copy)]
struct Scope<'p> {
    program: &'p Program,
    within: bool,
    bound: u64,
}

impl<'p> Scope<'p> {
    fn binding(self, variables: u64) -> Scope<'p>
        requires { self.bound + variables < 2 ^ 64 }
        ensures { result ≡ record self.entry { bound = self.entry.bound + variables } }
    {
        Scope {
            bound: self.bound + variables,
            ..self
        }
    }

    fn has_array(self, array: u64) -> bool
        ensures { IsTrue result ↔ (array < length self.entry.program.now.arrays.items) }
    {
        array < self.program.arrays.len() as u64
    }

    /// Checks `expr`, but not its subexpressions. Its number in the order of the program's text is `node`.
    fn judge(self, expr: &Expr, node: u64) -> Result<(), CheckFault>
        ensures { result ≡ first_fault node (take 1
            (node_faults (source_of self.entry.program.now) self.entry.within self.entry.bound (tree_of expr.now))) }
    {
        match expr {
            Expr::Var(k) if *k >= self.bound => Err(CheckFault::Unbound(node)),
            Expr::Len(array) | Expr::Item(array, _) if !self.has_array(*array) => {
                Err(CheckFault::NoArray(node))
            }
            Expr::Tally(ledger, _, _) if *ledger >= u64::from(self.program.ledgers) => {
                Err(CheckFault::NoLedger(node))
            }
            Expr::Hold(_, _) | Expr::Fork(_, _, _, _) | Expr::Sweep(_, _, _, _, _) if self.within =>
                { Err(CheckFault::WithinHold(node)) }
            Expr::Hold(lock, _) if *lock >= u64::from(self.program.locks) => {
                Err(CheckFault::NoLock(node))
            }
            Expr::Sweep(_, 0, _, _, _) => Err(CheckFault::NoGrain(node)),
            _ => Ok(()),
        }
    }

    /// Checks `expr` and its subexpressions, and returns the number of the node after them.
    #[cycle(judging)]
    #[tactic(auto, using(crate::proofs::NodesJudged::judged_parts, crate::proofs::NodesJudged::some_faults))]
    fn check(self, expr: &Expr, node: u64) -> Result<u64, CheckFault>
        requires nodes { node + node_count (tree_of expr.now) ≤ MOST_NODES }
        requires bound { self.bound + 2 * nesting (tree_of expr.now) ≤ 2 * MOST_LEVELS }
        ensures judged { result ≡ judged node
            (node_faults (source_of self.entry.program.now) self.entry.within self.entry.bound (tree_of expr.now)) }
        ensures next { IfOk result (λ next. next ≡ node + node_count (tree_of expr.now)) }
    {
        self.judge(expr, node)?;
        let first = node + 1;
        match expr {
            Expr::Num(_) | Expr::Var(_) | Expr::Len(_) => Ok(first),
            Expr::Item(_, a) => self.check(a, first),
            Expr::Hold(_, a) => {
                let within = Scope {
                    within: true,
                    ..self
                };
                within.check(a, first)
            }
            Expr::Binary(_, a, b) | Expr::Tally(_, a, b) => self.two(a, self, b, first),
            Expr::Let(a, b) => self.two(a, self.binding(1), b, first),
            Expr::If(a, b, c) => {
                let third = self.two(a, self, b, first)?;
                self.check(c, third)
            }
            Expr::Sweep(_, _, a, b, c) => {
                let third = self.two(a, self, b, first)?;
                self.binding(1).check(c, third)
            }
            Expr::Fork(_, a, b, c) => {
                let third = self.two(a, self, b, first)?;
                self.binding(2).check(c, third)
            }
            Expr::Fold(a, b, c, d) => {
                let third = self.two(a, self, b, first)?;
                self.two(c, self.binding(2), d, third)
            }
        }
    }

    /// `node` is the number of `a`, which is checked in this scope, and `b` in the scope `last`.
    #[cycle(judging)]
    fn two(self, a: &Expr, last: Scope, b: &Expr, node: u64) -> Result<u64, CheckFault>
        requires nodes { node + node_count (tree_of a.now) + node_count (tree_of b.now) ≤ MOST_NODES }
        requires bound { self.bound + 2 * nesting (tree_of a.now) ≤ 2 * MOST_LEVELS }
        requires last { last.bound + 2 * nesting (tree_of b.now) ≤ 2 * MOST_LEVELS }
        ensures judged { result ≡ judged node
            (node_faults (source_of self.entry.program.now) self.entry.within self.entry.bound (tree_of a.now)
            ++ node_faults (source_of last.entry.program.now) last.entry.within last.entry.bound (tree_of b.now)) }
        ensures next { IfOk result (λ next. next ≡ node + node_count (tree_of a.now) + node_count (tree_of b.now)) }
    {
        let second = self.check(a, node)?;
        last.check(b, second)
    }
}
