//! Finds out if a program forks exclusive threads, each of which needs a core for itself.
ghost use Rattle.std.specs.Prelude.{◌≡◌};
ghost use Rattle.arachne_program.specs.Program.{tree_of};
ghost use Rattle.arachne_jobs.specs.Classes.{forks_exclusive};

use arachne_program::{Class, Expr};

/// Returns true if `expr`, or an expression inside it, forks an exclusive thread, which needs a core for itself.
pub fn has_exclusive(expr: &Expr) -> bool
    ensures { result ≡ forks_exclusive (tree_of expr.now) }
{
    match expr {
        Expr::Num(_) | Expr::Var(_) | Expr::Len(_) => false,
        Expr::Item(_, index) => has_exclusive(index),
        Expr::Binary(_, first, second) => has_exclusive(first) || has_exclusive(second),
        Expr::If(condition, first, second) => {
            has_exclusive(condition) || has_exclusive(first) || has_exclusive(second)
        }
        Expr::Let(bound, body) => has_exclusive(bound) || has_exclusive(body),
        Expr::Tally(_, amount, body) => has_exclusive(amount) || has_exclusive(body),
        Expr::Hold(_, body) => has_exclusive(body),
        Expr::Fork(class, child, during, after) => {
            *class == Class::Exclusive
                || has_exclusive(child)
                || has_exclusive(during)
                || has_exclusive(after)
        }
        Expr::Fold(from, to, first, body) => {
            has_exclusive(from) || has_exclusive(to) || has_exclusive(first) || has_exclusive(body)
        }
        Expr::Sweep(_, _, from, to, body) => {
            has_exclusive(from) || has_exclusive(to) || has_exclusive(body)
        }
    }
}
