//! The outcome of an ended thread: its value, the sums that it has added to each ledger (a shared sum), and its report
//! lines.
ghost use Rattle.std.specs.Prelude.{◌≡◌, ◌∷◌, IfOk, IfErr};
ghost use Rattle.arachne_machine.specs.Outcome.{IsOfItsName};

use crate::contents::Contents;
use crate::thread_lines::ThreadLines;
use arachne_program::{Name, Program, Sequence};
use std::marker::Model;

/// The outcome of an ended thread: its value, its sum for each ledger, and the report lines of it and its descendants.
///
/// An outcome is always the one that the language's definition gives for the thread of this name in its program.
#[derive(Debug, Drop)]
pub struct Outcome<'p> {
    pub(crate) program: &'p Program,
    pub(crate) contents: Contents,
}

impl<'p> Model for Outcome<'p> {
    ghost use Rattle.arachne_machine.specs.Outcome.{Finished, IsOfItsName, finished};

    ghost Value = { Finished };

    ghost use Rattle.std.specs.Coded.{codes};
    ghost use Rattle.arachne_program.specs.contracts.program.Expr as expr;

    ghost coded = { Prim.hlevel (codes, expr.the_row.coded) };

    ghost view = { λ o. finished o.program.now o.contents };

    ghost invariant = { λ o. IsOfItsName (finished o.program.now o.contents) };
}

/// The value, ledger sums and report lines of an ended thread.
#[derive(Debug, Drop)]
pub struct OutcomeParts {
    pub value: u64,
    /// For each ledger, the total that the thread and its descendants have added, modulo 2^64.
    pub sums: Sequence<u64>,
    /// The thread's own report line, followed by those of its descendants.
    pub lines: ThreadLines,
}

impl<'p> Outcome<'p> {
    /// Returns the program to which the thread belongs.
    pub fn program(&self) -> &'p Program
        ensures { result.now ≡ self.now.program }
    {
        self.program
    }

    pub fn name(&self) -> &Name
        ensures { result.now ≡ self.now.name }
    {
        &self.contents.own.name
    }

    pub fn value(&self) -> u64
        ensures value { result ≡ self.now.value }
        ensures of_its_name { IsOfItsName self.now }
    {
        self.contents.value
    }

    /// Returns the thread's value, its ledger sums, and the report lines of the thread and its descendants.
    ///
    /// Allocates a list for the lines. If memory is refused, returns the outcome as the error.
    pub fn into_parts(self) -> Result<OutcomeParts, Outcome<'p>>
        ensures value { IfOk result (λ parts. parts.value ≡ self.entry.value) }
        ensures sums { IfOk result (λ parts. parts.sums ≡ self.entry.sums) }
        ensures lines { IfOk result (λ parts. parts.lines ≡ self.entry.lines) }
        ensures handed_back { IfErr result (λ outcome. outcome ≡ self.entry) }
        ensures of_its_name { IsOfItsName self.entry }
    {
        let Outcome { program, contents } = self;
        let mut contents = contents;
        match contents.take_parts() {
            Ok(parts) => Ok(parts),
            Err(_) => Err(Outcome { program, contents }),
        }
    }
}
