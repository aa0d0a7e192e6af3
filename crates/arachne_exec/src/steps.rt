//! Types for proofs only: what always holds for an executor's words and slots, and the kinds of atomic operation.
use crate::view::View;
use atomic_table::{Join, Play, Split, TableRule};

/// Names, in proofs, what holds for an executor's words and slots between any two atomic operations.
pub struct Lawful;

impl TableRule<u64, View, usize> for Lawful {
    ghost use Rattle.arachne_exec.specs.Board.{IsLawful};
    ghost use Rattle.arachne_exec.specs.Changes.{first_view};

    ghost holds = { IsLawful };

    ghost first = { λ shards. first_view };
}

pub(crate) struct LookAtWord;

impl Play<u64, View> for LookAtWord {
    ghost use Rattle.arachne_exec.specs.Steps.{Looks};

    ghost then = { Looks };
}

pub(crate) struct TakeBit;

impl Play<u64, View> for TakeBit {
    ghost use Rattle.arachne_exec.specs.Steps.{Takes};

    ghost then = { Takes };
}

pub(crate) struct TakeMany;

impl Play<u64, View> for TakeMany {
    ghost use Rattle.arachne_exec.specs.Steps.{TakesMany};

    ghost then = { TakesMany };
}

pub(crate) struct ClaimBit;

impl Play<u64, View> for ClaimBit {
    ghost use Rattle.arachne_exec.specs.Steps.{Claims};

    ghost then = { Claims };
}

pub(crate) struct PutFree;

impl Play<u64, View> for PutFree {
    ghost use Rattle.arachne_exec.specs.Steps.{Frees};

    ghost then = { Frees };
}

pub(crate) struct PutReady;

impl Play<u64, View> for PutReady {
    ghost use Rattle.arachne_exec.specs.Steps.{Readies};

    ghost then = { Readies };
}

pub(crate) struct PutSpawned;

impl Play<u64, View> for PutSpawned {
    ghost use Rattle.arachne_exec.specs.Steps.{Spawns};

    ghost then = { Spawns };
}

pub(crate) struct Begin;

impl Play<u64, View> for Begin {
    ghost use Rattle.arachne_exec.specs.Steps.{Begins};

    ghost then = { Begins };
}

pub(crate) struct Block;

impl Play<u64, View> for Block {
    ghost use Rattle.arachne_exec.specs.Steps.{Blocks};

    ghost then = { Blocks };
}

pub(crate) struct Renew;

impl Play<u64, View> for Renew {
    ghost use Rattle.arachne_exec.specs.Steps.{Renews};

    ghost then = { Renews };
}

pub(crate) struct RetirePlace;

impl Play<u64, View> for RetirePlace {
    ghost use Rattle.arachne_exec.specs.Steps.{Retires};

    ghost then = { Retires };
}

pub(crate) struct Hear;

impl Play<u64, View> for Hear {
    ghost use Rattle.arachne_exec.specs.Steps.{Hears};

    ghost then = { Hears };
}

pub(crate) struct Wake;

impl Play<u64, View> for Wake {
    ghost use Rattle.arachne_exec.specs.Steps.{Wakes};

    ghost then = { Wakes };
}

pub(crate) struct MarkWake;

impl Play<u64, View> for MarkWake {
    ghost use Rattle.arachne_exec.specs.Steps.{Marks};

    ghost then = { Marks };
}

pub(crate) struct FindShown;

impl Play<u64, View> for FindShown {
    ghost use Rattle.arachne_exec.specs.Steps.{FindsShown};

    ghost then = { FindsShown };
}

pub(crate) struct Show;

impl Play<u64, View> for Show {
    ghost use Rattle.arachne_exec.specs.Steps.{Shows};

    ghost then = { Shows };
}

pub(crate) struct Hide;

impl Play<u64, View> for Hide {
    ghost use Rattle.arachne_exec.specs.Steps.{Hides};

    ghost then = { Hides };
}

pub(crate) struct LookAgain;

impl Play<u64, View> for LookAgain {
    ghost use Rattle.arachne_exec.specs.Steps.{LooksAgain};

    ghost then = { LooksAgain };
}

pub(crate) struct LookIdle;

impl Play<u64, View> for LookIdle {
    ghost use Rattle.arachne_exec.specs.Steps.{LooksIdle};

    ghost then = { LooksIdle };
}

pub(crate) struct Unpark;

impl Play<u64, View> for Unpark {
    ghost use Rattle.arachne_exec.specs.Steps.{Unparks};

    ghost then = { Unparks };
}

pub(crate) struct Rise;

impl Play<u64, View> for Rise {
    ghost use Rattle.arachne_exec.specs.Steps.{Rises};

    ghost then = { Rises };
}

pub(crate) struct SetIdle;

impl Play<u64, View> for SetIdle {
    ghost use Rattle.arachne_exec.specs.Steps.{Rests};

    ghost then = { Rests };
}

pub(crate) struct LookNext;

impl Play<u64, View> for LookNext {
    ghost use Rattle.arachne_exec.specs.Steps.{LooksNext};

    ghost then = { LooksNext };
}

pub(crate) struct Register;

impl Play<u64, View> for Register {
    ghost use Rattle.arachne_exec.specs.Steps.{Registers};

    ghost then = { Registers };
}

pub(crate) struct Unregister;

impl Play<u64, View> for Unregister {
    ghost use Rattle.arachne_exec.specs.Steps.{Leaves};

    ghost then = { Leaves };
}

/// Names, in proofs, the split of a seat (right to call). The new seat holds no job.
pub(crate) struct Halve;

impl Split<View> for Halve {
    ghost use Rattle.arachne_exec.specs.Changes.{first_of, second_of};

    ghost left = { first_of };

    ghost right = { second_of };
}

impl Join<View> for Halve {
    ghost use Rattle.arachne_weights.specs.Tokens.{spent};
    ghost use Rattle.arachne_exec.specs.Changes.{blank, both_of};

    ghost both = { both_of };

    ghost spent = { spent blank };
}
