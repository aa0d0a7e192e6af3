//! Parses the keyword of an expression, which determines the kind of expression.
ghost use Rattle.arachne_lang.specs.Reading.{Gives, Behind, End, words_at, form_words, words_in_f, words_in_i, words_in_l, words_in_m, words_in_s, words_of_sweeps, sweeps_in_m};

use super::stop::Stop;
use super::words::word;
use arachne_program::{Class, Operation, Reduction};

/// The kind of an expression, which its keyword determines.
#[derive(Clone, Copy)]
pub enum Head {
    Num,
    Var,
    Len,
    Item,
    Binary(Operation),
    If,
    Let,
    Tally,
    Hold,
    Fork(Class),
    Fold,
    Sweep(Reduction),
}

/// Parses the keyword at the front of `text`, and the space after it.
///
/// If no keyword matches, the error is at the first byte that differs from the keyword that was tried last.
#[tactic(auto, unfolding(crate::specs::Reading::form_words))]
pub fn head_word(text: &[u8]) -> Result<(Head, &[u8]), Stop<'_>>
    ensures { Gives (λ read. (read.0, read.1.now)) result (words_at form_words text.now) }
{
    match text {
        [b'a', rest @ ..] => ending(rest, b"dd ", Head::Binary(Operation::Add)),
        [b'e', rest @ ..] => ending(rest, b"q ", Head::Binary(Operation::Eq)),
        [b'f', rest @ ..] => behind_f(rest),
        [b'h', rest @ ..] => ending(rest, b"old ", Head::Hold),
        [b'i', rest @ ..] => behind_i(rest),
        [b'l', rest @ ..] => behind_l(rest),
        [b'm', rest @ ..] => behind_m(rest),
        [b'n', rest @ ..] => ending(rest, b"um ", Head::Num),
        [b's', rest @ ..] => behind_s(rest),
        [b't', rest @ ..] => ending(rest, b"ally ", Head::Tally),
        [b'v', rest @ ..] => ending(rest, b"ar ", Head::Var),
        _ => ending(text, b"xor ", Head::Binary(Operation::Xor)),
    }
}

/// Parses `letters`, the remaining letters of the keyword of `head`.
fn ending<'t>(text: &'t [u8], letters: &[u8], head: Head) -> Result<(Head, &'t [u8]), Stop<'t>>
    ensures { Gives (λ read. (read.0, read.1.now)) result (words_at (Behind letters.now (End head)) text.now) }
{
    let rest = word(text, letters)?;
    Ok((head, rest))
}

#[tactic(auto, unfolding(crate::specs::Reading::words_in_f))]
fn behind_f(text: &[u8]) -> Result<(Head, &[u8]), Stop<'_>>
    ensures { Gives (λ read. (read.0, read.1.now)) result (words_at words_in_f text.now) }
{
    let rest = word(text, b"o")?;
    let rest = match rest {
        [b'l', rest @ ..] => return ending(rest, b"d ", Head::Fold),
        _ => word(rest, b"rk ")?,
    };
    match rest {
        [b'n', rest @ ..] => ending(rest, b" ", Head::Fork(Class::Normal)),
        _ => ending(rest, b"x ", Head::Fork(Class::Exclusive)),
    }
}

#[tactic(auto, unfolding(crate::specs::Reading::words_in_i))]
fn behind_i(text: &[u8]) -> Result<(Head, &[u8]), Stop<'_>>
    ensures { Gives (λ read. (read.0, read.1.now)) result (words_at words_in_i text.now) }
{
    match text {
        [b't', rest @ ..] => ending(rest, b"em ", Head::Item),
        _ => ending(text, b"f ", Head::If),
    }
}

#[tactic(auto, unfolding(crate::specs::Reading::words_in_l))]
fn behind_l(text: &[u8]) -> Result<(Head, &[u8]), Stop<'_>>
    ensures { Gives (λ read. (read.0, read.1.now)) result (words_at words_in_l text.now) }
{
    let [b'e', rest @ ..] = text else {
        return ending(text, b"t ", Head::Binary(Operation::Lt));
    };
    match rest {
        [b't', rest @ ..] => ending(rest, b" ", Head::Let),
        _ => ending(rest, b"n ", Head::Len),
    }
}

#[tactic(auto, unfolding(crate::specs::Reading::words_in_m))]
fn behind_m(text: &[u8]) -> Result<(Head, &[u8]), Stop<'_>>
    ensures { Gives (λ read. (read.0, read.1.now)) result (words_at words_in_m text.now) }
{
    match text {
        [b'u', rest @ ..] => ending(rest, b"l ", Head::Binary(Operation::Mul)),
        [b'i', rest @ ..] => ending(rest, b"n ", Head::Binary(Operation::Min)),
        _ => ending(text, b"ax ", Head::Binary(Operation::Max)),
    }
}

#[tactic(auto, unfolding(crate::specs::Reading::words_in_s))]
fn behind_s(text: &[u8]) -> Result<(Head, &[u8]), Stop<'_>>
    ensures { Gives (λ read. (read.0, read.1.now)) result (words_at words_in_s text.now) }
{
    match text {
        [b'u', rest @ ..] => ending(rest, b"b ", Head::Binary(Operation::Sub)),
        _ => {
            let rest = word(text, b"weep ")?;
            reduction(rest)
        }
    }
}

/// Parses the second keyword of a sweep (a parallel reduction), which determines its reduction.
#[tactic(auto, unfolding(crate::specs::Reading::words_of_sweeps))]
fn reduction(text: &[u8]) -> Result<(Head, &[u8]), Stop<'_>>
    ensures { Gives (λ read. (read.0, read.1.now)) result (words_at words_of_sweeps text.now) }
{
    match text {
        [b'a', rest @ ..] => ending(rest, b"dd ", Head::Sweep(Reduction::Sum)),
        [b'x', rest @ ..] => ending(rest, b"or ", Head::Sweep(Reduction::Parity)),
        _ => {
            let rest = word(text, b"m")?;
            reduction_behind_m(rest)
        }
    }
}

#[tactic(auto, unfolding(crate::specs::Reading::sweeps_in_m))]
fn reduction_behind_m(text: &[u8]) -> Result<(Head, &[u8]), Stop<'_>>
    ensures { Gives (λ read. (read.0, read.1.now)) result (words_at sweeps_in_m text.now) }
{
    match text {
        [b'u', rest @ ..] => ending(rest, b"l ", Head::Sweep(Reduction::Product)),
        [b'i', rest @ ..] => ending(rest, b"n ", Head::Sweep(Reduction::Least)),
        _ => ending(text, b"ax ", Head::Sweep(Reduction::Greatest)),
    }
}
