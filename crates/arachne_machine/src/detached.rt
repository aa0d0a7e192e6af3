//! A boxed outcome of a thread, without a reference to the program, so that its type has no lifetime.
ghost use Rattle.std.specs.Prelude.{◌≡◌, ◌∷◌, IfOk, IfErr};
ghost use Rattle.arachne_machine.specs.Outcome.{IsOfItsName};

use crate::contents::Contents;
use crate::outcome::OutcomeParts;
use arachne_program::{Program, Sequence};
use std::marker::Model;
use std::snapshot::Snapshot;

/// The value, ledger sums and report lines of an ended thread, in a box.
#[derive(Drop)]
pub struct DetachedOutcome {
    pub(crate) program: Snapshot<Program>,
    pub(crate) contents: Box<Contents>,
}

impl Model for DetachedOutcome {
    ghost use Rattle.arachne_machine.specs.Outcome.{Finished, IsOfItsName, finished};

    ghost Value = { Finished };

    ghost use Rattle.std.specs.Coded.{codes};
    ghost use Rattle.arachne_program.specs.contracts.program.Expr as expr;

    ghost coded = { Prim.hlevel (codes, expr.the_row.coded) };

    ghost view = { λ o. finished o.program.value o.contents.value };

    ghost invariant = { λ o. IsOfItsName (finished o.program.value o.contents.value) };
}

impl DetachedOutcome {
    /// Returns the thread's value, its ledger sums, and the report lines of the thread and its descendants.
    ///
    /// Allocates a list for the lines. If memory is refused, returns `self` as the error.
    pub fn into_parts(self) -> Result<OutcomeParts, DetachedOutcome>
        ensures value { IfOk result (λ parts. parts.value ≡ self.value) }
        ensures sums { IfOk result (λ parts. parts.sums ≡ self.sums) }
        ensures lines { IfOk result (λ parts. parts.lines ≡ self.lines) }
        ensures handed_back { IfErr result (λ outcome. outcome ≡ self) }
        ensures of_its_name { IsOfItsName self }
    {
        let DetachedOutcome { program, contents } = self;
        let mut contents = contents;
        match contents.take_parts() {
            Ok(parts) => Ok(parts),
            Err(_) => Err(DetachedOutcome { program, contents }),
        }
    }
}
