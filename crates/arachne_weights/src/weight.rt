//! A part of the whole weight 2^127. A split halves a weight, and a join adds two.
ghost use Rattle.std.specs.Prelude.{◌≡◌, ◌↔◌, IsTrue};
ghost use Rattle.arachne_weights.specs.Weight.{whole, first_part, second_part, joined};

use std::marker::Model;

const WHOLE: u128 = 1 << 127;

/// A part of the whole weight, 2^127. Contracts treat a weight as a number.
#[derive(Clone, Copy, Debug, PartialEq, Eq)]
pub struct Weight {
    amount: u128,
}

impl Model for Weight {
    ghost use Rattle.std.specs.Prelude.{ℕ, ◌≤◌};
    ghost use Rattle.arachne_weights.specs.Weight.{whole};

    ghost Value = { ℕ };

    ghost view = { λ w. w.amount };

    ghost invariant = { λ w. w.amount ≤ whole };

    ghost inverse = { λ n. record { amount = n } };
}

impl Weight {
    /// Returns the whole weight, 2^127, which the first user of an object gets.
    pub fn whole() -> Weight
        ensures { result ≡ whole }
    {
        Weight { amount: WHOLE }
    }

    /// Returns half of the weight, rounded up, and the other half. A weight of 1 or 0 can't be halved, so both results
    /// are then 0.
    pub fn split(self) -> (Weight, Weight)
        ensures first { result.0 ≡ first_part self }
        ensures second { result.1 ≡ second_part self }
    {
        if self.amount <= 1 {
            return (Weight { amount: 0 }, Weight { amount: 0 });
        }
        let second = self.amount / 2;
        let first = self.amount - second;
        (Weight { amount: first }, Weight { amount: second })
    }

    /// Returns the sum of both weights, but at most the whole weight.
    pub fn join(self, other: Weight) -> Weight
        ensures { result ≡ joined self other }
    {
        Weight {
            amount: self.amount.saturating_add(other.amount).min(WHOLE),
        }
    }

    pub fn is_whole(self) -> bool
        ensures { IsTrue result ↔ (self ≡ whole) }
    {
        self.amount == WHOLE
    }
}

#[cfg(test)]
mod tests {
    use super::*;

    #[test]
    fn a_split_rounds_up_and_stops_at_one(rt: HostRuntime) {
        for (amount, first, second) in [(0, 0, 0), (1, 0, 0), (2, 1, 1), (3, 2, 1), (7, 4, 3)] {
            let (a, b) = Weight { amount }.split();
            assert!(rt; a.amount == first && b.amount == second, "at {amount}");
        }
    }

    #[test]
    fn parts_of_the_whole_join_to_the_whole(rt: HostRuntime) {
        let (first, second) = Weight::whole().split();
        let (second, third) = second.split();
        assert_eq!(rt; first.amount, 1 << 126);
        assert_eq!(rt; third.amount, 1 << 125);
        assert!(rt; !first.join(second).is_whole());
        assert!(rt; first.join(second).join(third).is_whole());
        assert!(rt; Weight::whole().join(Weight::whole()).is_whole());
    }
}
