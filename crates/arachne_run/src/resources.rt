//! The ledgers (shared counters) and the locks of a run, and a worker's rights to use them.
ghost use Rattle.std.specs.Prelude.{◌≡◌, ◌%◌, ◌^◌, All, IfErr, IfOk, length, map};
ghost use Rattle.arachne_ledger.specs.Views.{IsWhole as IsWholeShare};
ghost use Rattle.arachne_sleep.specs.History.{IsSound};
ghost use Rattle.arachne_sleep.specs.OneHolder.{HasOneHolderAtATime};
ghost use Rattle.arachne_sleep.specs.Views.{IsWhole as IsWholeSeat};
ghost use Rattle.arachne_run.specs.Tokens.{AreHoldingsOf};

use arachne_ledger::{Ledgers, Share};
use arachne_sleep::{History, LockSeats, SleepLocks};
use std::alloc::{AllocError, Global};

#[derive(Drop)]
pub(crate) struct Resources {
    pub(crate) ledgers: Ledgers,
    pub(crate) locks: SleepLocks,
}

/// A worker's rights to use the ledgers and locks: its share of the ledgers' sums, and its seat at each lock.
#[derive(Drop)]
pub(crate) struct Holdings {
    pub(crate) share: Share,
    pub(crate) lock_seats: LockSeats,
}

/// What the ledgers and locks leave for the report: each ledger's sum modulo 2^64, and each lock's history.
#[derive(Drop)]
pub(crate) struct Remains {
    pub(crate) sums: Vec<u64>,
    pub(crate) histories: Vec<History>,
}

impl Resources {
    /// Splits a worker's rights in two.
    ///
    /// If memory is refused, returns the rights unsplit.
    pub(crate) fn split(
        &self,
        alloc: Global,
        holdings: Holdings,
    ) -> Result<(Holdings, Holdings), Holdings>
        requires { AreHoldingsOf self.now holdings }
        ensures own { IfOk result (λ parts. AreHoldingsOf self.now parts.0) }
        ensures others { IfOk result (λ parts. AreHoldingsOf self.now parts.1) }
        ensures err { IfErr result (AreHoldingsOf self.now) }
    {
        let Holdings { share, lock_seats } = holdings;
        let (lock_seats, other_lock_seats) = match self.locks.split(alloc, lock_seats) {
            Ok(parts) => parts,
            Err(lock_seats) => return Err(Holdings { share, lock_seats }),
        };
        let (share, other_share) = self.ledgers.split(share);
        let own = Holdings { share, lock_seats };
        let others = Holdings {
            share: other_share,
            lock_seats: other_lock_seats,
        };
        Ok((own, others))
    }

    /// Closes the ledgers and locks, for which all rights to use them are required.
    pub(crate) fn close(self, alloc: Global, holdings: Holdings) -> Result<Remains, AllocError>
        requires holdings { AreHoldingsOf self holdings }
        requires all { IsWholeShare holdings.share × All IsWholeSeat holdings.lock_seats }
        ensures count { IfOk result (λ remains. length remains.histories.items ≡ length self.locks) }
        ensures sound { IfOk result (λ remains. All (λ history. IsSound history.items) remains.histories.items) }
        ensures one_holder { IfOk result (λ remains. All (λ history. HasOneHolderAtATime history.items) remains.histories.items) }
        ensures sums { IfOk result (λ remains. remains.sums.items ≡ map (λ sum. sum % 2 ^ 64) holdings.share.sums) }
    {
        let Ok(histories) = self.locks.close(alloc, holdings.lock_seats) else {
            return Err(AllocError);
        };
        let Ok(sums) = self.ledgers.close(alloc, holdings.share) else {
            return Err(AllocError);
        };
        Ok(Remains { sums, histories })
    }
}
