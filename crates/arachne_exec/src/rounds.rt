//! An iterator over the shards of a worker, in the order in which they are searched for ready jobs.
ghost use Rattle.std.specs.Prelude.{◌≡◌, ℕ, ◌+◌, ◌*◌, ◌/◌, ◌<◌, ◌≤◌, IfSome, IfNone};

use crate::turns::{SearchTurn, shard_in_turn};

/// The shards (64 blocks of job slots each) that a worker must still search: from its shard at position `first` to its
/// highest, and then on from its lowest.
#[derive(Drop)]
pub(crate) struct Round {
    worker: usize,
    count: usize,
    first: usize,
    index: usize,
    ghost few: { worker + 64 * count ≤ 512 },
    ghost within: { 0 < count → first < count },
    ghost begun: { index ≤ count },
}

impl Round {
    #[inline(always)]
    pub(crate) fn of(turn: &SearchTurn, worker: usize, count: usize) -> Round
        requires { worker + 64 * count ≤ 512 }
        ensures worker { result.worker ≡ worker }
        ensures all { (result.count ≡ count) × (result.index ≡ 0) }
        ensures turn { turn.now.place / 262144 < count → result.first ≡ turn.now.place / 262144 }
        ensures first { count ≤ turn.now.place / 262144 → result.first ≡ 0 }
    {
        Round {
            worker,
            count,
            first: turn.first_shard(count),
            index: 0,
        }
    }

    #[inline(always)]
    pub(crate) fn next(&mut self) -> Option<usize>
        ensures same { (self.new.worker ≡ self.old.worker) × (self.new.count ≡ self.old.count) × (self.new.first ≡ self.old.first) }
        ensures one { IfSome result (λ it. self.new.index ≡ self.old.index + 1) }
        ensures inside { IfSome result (λ it. (self.old.index < self.old.count) × (k : ℕ) × (k < self.old.count) × (it ≡ self.old.worker + 64 * k)) }
        ensures ahead { IfSome result (λ it. self.old.first + self.old.index < self.old.count → it ≡ self.old.worker + 64 * (self.old.first + self.old.index)) }
        ensures round { IfSome result (λ it. self.old.count ≤ self.old.first + self.old.index → it + 64 * self.old.count ≡ self.old.worker + 64 * (self.old.first + self.old.index)) }
        ensures none { IfNone result ((self.new.index ≡ self.old.index) × (self.old.index ≡ self.old.count)) }
    {
        if self.index >= self.count {
            return None;
        }
        let turn = shard_in_turn(self.first, self.index, self.count);
        self.index += 1;
        Some(self.worker + 64 * turn)
    }
}
