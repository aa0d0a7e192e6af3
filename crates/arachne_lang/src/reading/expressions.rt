//! Parses an expression: a keyword with its parts in brackets.
ghost use Rattle.arachne_lang.specs.declared.reading.heads.Head.TheVariants as head;
ghost use Rattle.std.specs.Prelude.{ℕ, List};
ghost use Rattle.arachne_program.specs.Tree.{Tree};
ghost use Rattle.arachne_program.specs.Program.{tree_of};
ghost use Rattle.arachne_lang.specs.Reading.{Gives, Reading, expression_at, part_at, form_at, behind_word_at};

use super::heads::{Head, head_word};
use super::numbers::number;
use super::stop::Stop;
use super::words::word;
use arachne_program::{Class, Expr, Operation, Reduction};
use std::alloc::Global;

/// Parses the expression at the front of `text`, nested at most `levels` levels deep. Returns the expression, and the
/// text after it.
#[cycle(expression)]
pub fn expression(alloc: Global, levels: u8, text: &[u8]) -> Result<(Expr, &[u8]), Stop<'_>>
    ensures { Gives (λ read. (tree_of read.0, read.1.now)) result (expression_at levels text.now) }
{
    let [b'(', rest @ ..] = text else {
        return Err(Stop::Departs(text));
    };
    if levels == 0 {
        return Err(Stop::TooDeep(text));
    }
    form(alloc, levels - 1, rest)
}

/// Parses the expression at the front of `text`, nested at most `levels` deep, and then the bytes `end`.
#[cycle(expression)]
#[tactic(auto, unfolding(crate::specs::Reading::part_at))]
fn part<'t>(
    alloc: Global,
    levels: u8,
    text: &'t [u8],
    end: &[u8],
) -> Result<(Box<Expr>, &'t [u8]), Stop<'t>>
    ensures { Gives (λ read. (tree_of read.0.value, read.1.now)) result (part_at (expression_at levels) end.now text.now) }
{
    let (part, rest) = expression(alloc, levels, text)?;
    let rest = word(rest, end)?;
    let part = Box::new(alloc, part)?;
    Ok((part, rest))
}

/// Parses the rest of an expression whose opening bracket was just parsed, with parts nested at most `levels` deep.
#[cycle(expression)]
#[tactic(auto, unfolding(crate::specs::Reading::form_at))]
fn form(alloc: Global, levels: u8, text: &[u8]) -> Result<(Expr, &[u8]), Stop<'_>>
    ensures { Gives (λ read. (tree_of read.0, read.1.now)) result (form_at (expression_at levels) text.now) }
{
    let (head, rest) = head_word(text)?;
    match head {
        Head::Num => constant(rest),
        Head::Var => variable(rest),
        Head::Len => length(rest),
        Head::Item => item(alloc, levels, rest),
        Head::Binary(operation) => binary(alloc, levels, operation, rest),
        Head::If => choice(alloc, levels, rest),
        Head::Let => binding(alloc, levels, rest),
        Head::Tally => tally(alloc, levels, rest),
        Head::Hold => hold(alloc, levels, rest),
        Head::Fork(class) => fork(alloc, levels, class, rest),
        Head::Fold => fold(alloc, levels, rest),
        Head::Sweep(reduction) => sweep(alloc, levels, reduction, rest),
    }
}

#[tactic(auto, unfolding(crate::specs::Reading::behind_word_at))]
fn constant(text: &[u8]) -> Result<(Expr, &[u8]), Stop<'_>>
    ensures { (tree_at : List ℕ → Reading Tree) → Gives (λ read. (tree_of read.0, read.1.now)) result (behind_word_at tree_at head.Num text.now) }
{
    let (value, rest) = number(text, b")")?;
    Ok((Expr::Num(value), rest))
}

#[tactic(auto, unfolding(crate::specs::Reading::behind_word_at))]
fn variable(text: &[u8]) -> Result<(Expr, &[u8]), Stop<'_>>
    ensures { (tree_at : List ℕ → Reading Tree) → Gives (λ read. (tree_of read.0, read.1.now)) result (behind_word_at tree_at head.Var text.now) }
{
    let (place, rest) = number(text, b")")?;
    Ok((Expr::Var(place), rest))
}

#[tactic(auto, unfolding(crate::specs::Reading::behind_word_at))]
fn length(text: &[u8]) -> Result<(Expr, &[u8]), Stop<'_>>
    ensures { (tree_at : List ℕ → Reading Tree) → Gives (λ read. (tree_of read.0, read.1.now)) result (behind_word_at tree_at head.Len text.now) }
{
    let (array, rest) = number(text, b")")?;
    Ok((Expr::Len(array), rest))
}

#[cycle(expression)]
#[tactic(auto, unfolding(crate::specs::Reading::behind_word_at))]
fn item(alloc: Global, levels: u8, text: &[u8]) -> Result<(Expr, &[u8]), Stop<'_>>
    ensures { Gives (λ read. (tree_of read.0, read.1.now)) result (behind_word_at (expression_at levels) head.Item text.now) }
{
    let (array, rest) = number(text, b" ")?;
    let (index, rest) = part(alloc, levels, rest, b")")?;
    Ok((Expr::Item(array, index), rest))
}

#[cycle(expression)]
#[tactic(auto, unfolding(crate::specs::Reading::behind_word_at))]
fn binary(
    alloc: Global,
    levels: u8,
    operation: Operation,
    text: &[u8],
) -> Result<(Expr, &[u8]), Stop<'_>>
    ensures { Gives (λ read. (tree_of read.0, read.1.now)) result (behind_word_at (expression_at levels) (head.Binary operation) text.now) }
{
    let (first, rest) = part(alloc, levels, text, b" ")?;
    let (second, rest) = part(alloc, levels, rest, b")")?;
    Ok((Expr::Binary(operation, first, second), rest))
}

#[cycle(expression)]
#[tactic(auto, unfolding(crate::specs::Reading::behind_word_at))]
fn choice(alloc: Global, levels: u8, text: &[u8]) -> Result<(Expr, &[u8]), Stop<'_>>
    ensures { Gives (λ read. (tree_of read.0, read.1.now)) result (behind_word_at (expression_at levels) head.If text.now) }
{
    let (condition, rest) = part(alloc, levels, text, b" ")?;
    let (first, rest) = part(alloc, levels, rest, b" ")?;
    let (second, rest) = part(alloc, levels, rest, b")")?;
    Ok((Expr::If(condition, first, second), rest))
}

#[cycle(expression)]
#[tactic(auto, unfolding(crate::specs::Reading::behind_word_at))]
fn binding(alloc: Global, levels: u8, text: &[u8]) -> Result<(Expr, &[u8]), Stop<'_>>
    ensures { Gives (λ read. (tree_of read.0, read.1.now)) result (behind_word_at (expression_at levels) head.Let text.now) }
{
    let (bound, rest) = part(alloc, levels, text, b" ")?;
    let (body, rest) = part(alloc, levels, rest, b")")?;
    Ok((Expr::Let(bound, body), rest))
}

#[cycle(expression)]
#[tactic(auto, unfolding(crate::specs::Reading::behind_word_at))]
fn tally(alloc: Global, levels: u8, text: &[u8]) -> Result<(Expr, &[u8]), Stop<'_>>
    ensures { Gives (λ read. (tree_of read.0, read.1.now)) result (behind_word_at (expression_at levels) head.Tally text.now) }
{
    let (ledger, rest) = number(text, b" ")?;
    let (amount, rest) = part(alloc, levels, rest, b" ")?;
    let (body, rest) = part(alloc, levels, rest, b")")?;
    Ok((Expr::Tally(ledger, amount, body), rest))
}

#[cycle(expression)]
#[tactic(auto, unfolding(crate::specs::Reading::behind_word_at))]
fn hold(alloc: Global, levels: u8, text: &[u8]) -> Result<(Expr, &[u8]), Stop<'_>>
    ensures { Gives (λ read. (tree_of read.0, read.1.now)) result (behind_word_at (expression_at levels) head.Hold text.now) }
{
    let (lock, rest) = number(text, b" ")?;
    let (body, rest) = part(alloc, levels, rest, b")")?;
    Ok((Expr::Hold(lock, body), rest))
}

#[cycle(expression)]
#[tactic(auto, unfolding(crate::specs::Reading::behind_word_at))]
fn fork(alloc: Global, levels: u8, class: Class, text: &[u8]) -> Result<(Expr, &[u8]), Stop<'_>>
    ensures { Gives (λ read. (tree_of read.0, read.1.now)) result (behind_word_at (expression_at levels) (head.Fork class) text.now) }
{
    let (child, rest) = part(alloc, levels, text, b" ")?;
    let (during, rest) = part(alloc, levels, rest, b" ")?;
    let (after, rest) = part(alloc, levels, rest, b")")?;
    Ok((Expr::Fork(class, child, during, after), rest))
}

#[cycle(expression)]
#[tactic(auto, unfolding(crate::specs::Reading::behind_word_at))]
fn fold(alloc: Global, levels: u8, text: &[u8]) -> Result<(Expr, &[u8]), Stop<'_>>
    ensures { Gives (λ read. (tree_of read.0, read.1.now)) result (behind_word_at (expression_at levels) head.Fold text.now) }
{
    let (from, rest) = part(alloc, levels, text, b" ")?;
    let (to, rest) = part(alloc, levels, rest, b" ")?;
    let (first, rest) = part(alloc, levels, rest, b" ")?;
    let (body, rest) = part(alloc, levels, rest, b")")?;
    Ok((Expr::Fold(from, to, first, body), rest))
}

#[cycle(expression)]
#[tactic(auto, unfolding(crate::specs::Reading::behind_word_at))]
fn sweep(
    alloc: Global,
    levels: u8,
    reduction: Reduction,
    text: &[u8],
) -> Result<(Expr, &[u8]), Stop<'_>>
    ensures { Gives (λ read. (tree_of read.0, read.1.now)) result (behind_word_at (expression_at levels) (head.Sweep reduction) text.now) }
{
    let (grain, rest) = number(text, b" ")?;
    let (from, rest) = part(alloc, levels, rest, b" ")?;
    let (to, rest) = part(alloc, levels, rest, b" ")?;
    let (body, rest) = part(alloc, levels, rest, b")")?;
    Ok((Expr::Sweep(reduction, grain, from, to, body), rest))
}
