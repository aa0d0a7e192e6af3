//! Evaluates expressions without effects (forks, locks, ledgers) and without loops in one recursive call.
ghost use Rattle.std.specs.Prelude.{◌≡◌, ◌≤◌, ◌+◌, ◌-◌, vec_len, vec_capacity, IfSome, MatchOption};
ghost use Rattle.arachne_program.specs.Program.{source_of, tree_of};
ghost use Rattle.arachne_program.specs.Value.{with_newest};
ghost use Rattle.arachne_machine.specs.Pure.{IsWorth};

use crate::lookup::{item_in, length_in, variable_in};
use arachne_program::{Expr, Program};

/// Returns the value of a loop's body, and subtracts its steps from `left`.
///
/// Returns `None`, with `left` unchanged, if the body has effects or loops, or needs more steps.
#[inline(always)]
pub fn body_at_once(
    program: &Program,
    environment: &mut Vec<u64>,
    body: &Expr,
    left: &mut u32,
) -> Option<u64>
    ensures items { environment.new.items ≡ environment.old.items }
    ensures len { vec_len environment.new ≡ vec_len environment.old }
    ensures room { vec_capacity environment.old ≤ vec_capacity environment.new }
    ensures worth { MatchOption result (left.new ≡ left.old) (λ value. (left.new + 1 ≤ left.old)
        × IsWorth (source_of program.now) (tree_of body.now) environment.old.items value (left.old - 1) left.new) }
{
    if *left == 0 {
        return None;
    }
    let mut rest = *left - 1;
    let value = value_at_once(program, environment, body, &mut rest)?;
    *left = rest;
    Some(value)
}

/// Returns the value of `expr`, or `None` if it has effects, loops or over `left` steps.
#[cycle(recursion)]
fn value_at_once(
    program: &Program,
    environment: &mut Vec<u64>,
    expr: &Expr,
    left: &mut u32,
) -> Option<u64>
    ensures items { environment.new.items ≡ environment.old.items }
    ensures len { vec_len environment.new ≡ vec_len environment.old }
    ensures room { vec_capacity environment.old ≤ vec_capacity environment.new }
    ensures fewer { left.new ≤ left.old }
    ensures worth { IfSome result (λ value. IsWorth (source_of program.now) (tree_of expr.now) environment.old.items value left.old left.new) }
{
    match expr {
        Expr::Num(number) => Some(*number),
        Expr::Var(variable) => Some(variable_in(environment.as_slice(), *variable)),
        Expr::Len(array) => Some(length_in(program, *array)),
        Expr::Item(array, index) => {
            if *left < 1 {
                return None;
            }
            *left -= 1;
            let index = side_at_once(program, environment, index, left)?;
            Some(item_in(program, *array, index))
        }
        Expr::Binary(operation, first, second) => {
            if *left < 2 {
                return None;
            }
            *left -= 2;
            let x = side_at_once(program, environment, first, left)?;
            let y = side_at_once(program, environment, second, left)?;
            Some(operation.apply(x, y))
        }
        Expr::If(condition, first, second) => {
            if *left < 2 {
                return None;
            }
            *left -= 2;
            let choice = value_at_once(program, environment, condition, left)?;
            if choice == 0 {
                return value_at_once(program, environment, second, left);
            }
            value_at_once(program, environment, first, left)
        }
        Expr::Let(bound, body) => {
            if *left < 2 {
                return None;
            }
            *left -= 2;
            let newest = value_at_once(program, environment, bound, left)?;
            bound_at_once(program, environment, newest, body, left)
        }
        _ => None,
    }
}

/// Returns the value of `expr` as `value_at_once` does, but faster for a number or a variable.
#[inline(always)]
#[cycle(recursion)]
fn side_at_once(
    program: &Program,
    environment: &mut Vec<u64>,
    expr: &Expr,
    left: &mut u32,
) -> Option<u64>
    ensures items { environment.new.items ≡ environment.old.items }
    ensures len { vec_len environment.new ≡ vec_len environment.old }
    ensures room { vec_capacity environment.old ≤ vec_capacity environment.new }
    ensures fewer { left.new ≤ left.old }
    ensures worth { IfSome result (λ value. IsWorth (source_of program.now) (tree_of expr.now) environment.old.items value left.old left.new) }
{
    match expr {
        Expr::Num(number) => Some(*number),
        Expr::Var(variable) => Some(variable_in(environment.as_slice(), *variable)),
        _ => value_at_once(program, environment, expr, left),
    }
}

/// Also returns `None` if memory for `newest` is refused.
#[cycle(recursion)]
fn bound_at_once(
    program: &Program,
    environment: &mut Vec<u64>,
    newest: u64,
    body: &Expr,
    left: &mut u32,
) -> Option<u64>
    ensures items { environment.new.items ≡ environment.old.items }
    ensures len { vec_len environment.new ≡ vec_len environment.old }
    ensures room { vec_capacity environment.old ≤ vec_capacity environment.new }
    ensures fewer { left.new ≤ left.old }
    ensures worth { IfSome result (λ value. IsWorth (source_of program.now) (tree_of body.now) (with_newest environment.old.items newest) value left.old left.new) }
{
    let count = environment.len();
    if environment.push(newest).is_err() {
        return None;
    }
    let value = value_at_once(program, environment, body, left);
    environment.truncate(count);
    value
}
