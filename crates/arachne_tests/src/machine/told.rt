//! Writes an outcome (the result of a program) as a text, with an entry for each thread, to compare it with an expected
//! text.
use arachne_lang::Name;
use arachne_machine::{LineView, OutcomeParts, Ran};
use std::alloc::Global;

fn numbers(alloc: Global, name: &Name) -> Option<Vec<u64>> {
    let mut numbers = Vec::new(alloc);
    for k in 0..name.len() {
        numbers.push(name.number(k)).ok()?;
    }
    Some(numbers)
}

fn told_line(alloc: Global, line: LineView<'_>) -> Option<String> {
    let mark = match line.ran() {
        Ran::Slot => "-",
        Ran::Spill => "~",
        Ran::InPlace => "+",
    };
    let name = numbers(alloc, line.name())?;
    let (tag, holds) = (line.tag(), line.holds());
    format!(in alloc; " {name:?}{tag}{mark}{holds:?}").ok()
}

pub(super) fn told(alloc: Global, parts: &OutcomeParts) -> Option<String> {
    let (value, sums) = (parts.value, parts.sums.as_slice());
    let mut text = format!(in alloc; "{value} {sums:?}").ok()?;
    for line in parts.lines.iter() {
        text.push_str(told_line(alloc, line)?.as_str()).ok()?;
    }
    Some(text)
}
