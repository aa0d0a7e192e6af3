//! Prints a program as text, from which `parse` reads the same program.

ghost use Rattle.std.specs.Prelude.{◌≡◌, ◌^◌, ◌<◌, ◌≤◌, ◌++◌, ◌∷◌, [], codes, map, option_to_list, IfOk, OnOk};
ghost use Rattle.std.specs.List.{AllByRecursion};
ghost use Rattle.arachne_program.specs.Nesting.{nesting};
ghost use Rattle.arachne_lang.specs.Text.{NumbersFit, IsAccepted};
ghost use Rattle.arachne_program.specs.Program.{tree_of, source_of};
ghost use Rattle.arachne_lang.specs.Spelling.{numeral, after_spaces, bracketed, line, operation_word, reduction_word, class_word, text_of, spelling};

use arachne_program::{Class, Expr, Operation, Program, Reduction};
use itoa::Buffer;
use std::alloc::{AllocError, Global};

/// Returns the text of `program`. Each program has exactly one text.
///
/// Takes time linear in the length of the text, and memory only for the text.
pub fn print(alloc: Global, program: &Program) -> Result<Vec<u8>, AllocError>
    requires { nesting (tree_of program.now.root) ≤ 64 }
    ensures text { IfOk result (λ text. text.items ≡ text_of (source_of program.now)) }
    // So `parse` of the text returns this program, unless memory is refused.
    ensures accepted { OnOk result (IsAccepted (source_of program.now)) }
{
    let mut text = Vec::new(alloc);
    push_line(&mut text, b"arachne", &[1])?;
    for array in &program.arrays {
        push_line(&mut text, b"array", array)?;
    }
    let ledgers = program.ledgers;
    push_line(&mut text, b"ledgers", &[u64::from(ledgers)])?;
    let locks = program.locks;
    push_line(&mut text, b"locks", &[u64::from(locks)])?;
    push_expression(&mut text, &program.root)?;
    text.push(b'\n')?;
    Ok(text)
}

fn push_line(text: &mut Vec<u8>, word: &[u8], numbers: &[u64]) -> Result<(), AllocError>
    ensures text { OnOk result (text.new.items ≡ text.old.items ++ line word.now numbers.now) }
    ensures fit { OnOk result (AllByRecursion (λ n. n < 2 ^ 64) numbers.now) }
{
    text.extend_from_slice(word)?;
    for number in numbers {
        push_number(text, *number)?;
    }
    text.push(b'\n')?;
    Ok(())
}

fn push_number(text: &mut Vec<u8>, number: u64) -> Result<(), AllocError>
    ensures { OnOk result (text.new.items ≡ text.old.items ++ 32 ∷ numeral number) }
{
    let mut digits = Buffer::new();
    text.push(b' ')?;
    text.extend_from_slice(digits.format(number).as_bytes())?;
    Ok(())
}

fn word_of(operation: Operation) -> &'static [u8]
    ensures { result.now ≡ operation_word operation }
{
    match operation {
        Operation::Add => b"add",
        Operation::Sub => b"sub",
        Operation::Mul => b"mul",
        Operation::Min => b"min",
        Operation::Max => b"max",
        Operation::Xor => b"xor",
        Operation::Lt => b"lt",
        Operation::Eq => b"eq",
    }
}

#[cycle(expression)]
fn push_expression(text: &mut Vec<u8>, expr: &Expr) -> Result<(), AllocError>
    ensures text { OnOk result (text.new.items ≡ text.old.items ++ spelling (tree_of expr.now)) }
    ensures fit { OnOk result (NumbersFit (tree_of expr.now)) }
{
    match expr {
        Expr::Num(n) => push_form(text, b"num", Some(*n), &[]),
        Expr::Var(k) => push_form(text, b"var", Some(*k), &[]),
        Expr::Len(array) => push_form(text, b"len", Some(*array), &[]),
        Expr::Item(array, index) => push_form(text, b"item", Some(*array), &[index]),
        Expr::Binary(operation, a, b) => push_form(text, word_of(*operation), None, &[a, b]),
        Expr::If(condition, a, b) => push_form(text, b"if", None, &[condition, a, b]),
        Expr::Let(bound, body) => push_form(text, b"let", None, &[bound, body]),
        Expr::Tally(ledger, a, b) => push_form(text, b"tally", Some(*ledger), &[a, b]),
        Expr::Hold(lock, body) => push_form(text, b"hold", Some(*lock), &[body]),
        Expr::Fork(class, a, b, c) => push_form(text, fork_words(*class), None, &[a, b, c]),
        Expr::Fold(from, to, first, body) => {
            push_form(text, b"fold", None, &[from, to, first, body])
        }
        Expr::Sweep(reduction, grain, from, to, body) => {
            let word = sweep_words(*reduction);
            push_form(text, word, Some(*grain), &[from, to, body])
        }
    }
}

#[cycle(expression)]
fn push_form(
    text: &mut Vec<u8>,
    word: &[u8],
    number: Option<u64>,
    parts: &[&Expr],
) -> Result<(), AllocError>
    ensures text { OnOk result (text.new.items ≡ text.old.items
        ++ bracketed word.now (map numeral (option_to_list number) ++ map (λ part. spelling (tree_of part.now)) parts.now)) }
    ensures fit { OnOk result (AllByRecursion (λ part. NumbersFit (tree_of part.now)) parts.now) }
{
    push_opening(text, word, number)?;
    for part in parts {
        text.push(b' ')?;
        push_expression(text, part)?;
    }
    text.push(b')')?;
    Ok(())
}

fn push_opening(text: &mut Vec<u8>, word: &[u8], number: Option<u64>) -> Result<(), AllocError>
    ensures { OnOk result (text.new.items ≡ text.old.items ++ 40 ∷ word.now ++ after_spaces (map numeral (option_to_list number))) }
{
    text.push(b'(')?;
    text.extend_from_slice(word)?;
    if let Some(number) = number {
        push_number(text, number)?;
    }
    Ok(())
}

fn fork_words(class: Class) -> &'static [u8]
    ensures { result.now ≡ codes "fork" ++ 32 ∷ class_word class }
{
    match class {
        Class::Normal => b"fork n",
        Class::Exclusive => b"fork x",
    }
}

fn sweep_words(reduction: Reduction) -> &'static [u8]
    ensures { result.now ≡ codes "sweep" ++ 32 ∷ reduction_word reduction }
{
    match reduction {
        Reduction::Sum => b"sweep add",
        Reduction::Product => b"sweep mul",
        Reduction::Parity => b"sweep xor",
        Reduction::Least => b"sweep min",
        Reduction::Greatest => b"sweep max",
    }
}
