//! Decides which client gets the next core, if several clients ask for more cores.
ghost use Rattle.std.specs.Prelude.{◌≡◌};
ghost use Rattle.arachne_grants.specs.Claims.{before_alike, claim_of, gets_before, goes_before, level_before, reserve_of};

/// A program that asks the daemon for cores.
#[derive(Clone, Copy, Debug, PartialEq, Eq)]
pub struct Client {
    /// The client's priority. 0 is the highest.
    pub priority: u8,
    /// The number of cores reserved for the client, which it gets before any client gets more than its own reserve.
    pub reserved: u32,
    /// The number of cores for which the client asks in all, those that it holds included.
    pub asks: u32,
    /// The number of cores that the client has at present.
    pub held: u32,
}

/// A client's claim: its request for one core more.
///
/// Of two claims, the one that `goes_before` the other gets its core first.
#[derive(Clone, Copy, Debug, PartialEq, Eq)]
pub(crate) struct Claim {
    /// True if the client was already given all cores that it has reserved.
    pub beyond: bool,
    pub priority: u8,
    /// The number of cores that the client was given before this claim.
    pub gets: u32,
    /// True if the client doesn't hold the claimed core at present, since it holds at most `gets` cores.
    pub moves: bool,
}

impl Client {
    /// Stands for a client number that no program has. It asks for no cores.
    pub(crate) const NONE: Client = Client {
        priority: 0,
        reserved: 0,
        asks: 0,
        held: 0,
    };

    fn reserve(&self) -> u32
        ensures { result ≡ reserve_of self.now }
    {
        self.reserved.min(self.asks)
    }

    /// Returns the client's claim to one core more, after it was given `gets` cores.
    pub(crate) fn claim(&self, gets: u32) -> Claim
        ensures { result ≡ claim_of self.now gets }
    {
        Claim {
            beyond: self.reserve() <= gets,
            priority: self.priority,
            gets,
            moves: self.held <= gets,
        }
    }

    /// Returns how many cores this client gets before the claim (request for one core) `claim` is met.
    pub(crate) fn gets_before(&self, claim: &Claim) -> u32
        ensures { result ≡ gets_before claim.now self.now }
    {
        if claim.beyond {
            self.reserve().max(self.before_alike(claim, self.asks))
        } else {
            self.before_alike(claim, self.reserve())
        }
    }

    fn before_alike(&self, claim: &Claim, most: u32) -> u32
        ensures { result ≡ before_alike claim.now self.now most }
    {
        if self.priority == claim.priority {
            most.min(self.level_before(claim))
        } else if self.priority < claim.priority {
            most
        } else {
            0
        }
    }

    fn level_before(&self, claim: &Claim) -> u32
        ensures { result ≡ level_before claim.now self.now }
    {
        if claim.moves && claim.gets < self.held {
            claim.gets + 1
        } else {
            claim.gets
        }
    }
}

impl Claim {
    /// A claim (request for one core) that is met before all others.
    pub(crate) const FIRST: Claim = Claim {
        beyond: false,
        priority: 0,
        gets: 0,
        moves: false,
    };

    /// Returns true if this claim (request for one core) is met before `other`.
    ///
    /// A client with fewer cores than its reserve goes first, and then a client of higher priority. Of clients equal in
    /// both, the one that was given fewer cores goes first, and then one that already holds the core that it gets.
    pub(crate) fn goes_before(&self, other: &Claim) -> bool
        ensures { result ≡ goes_before self.now other.now }
    {
        if self.beyond != other.beyond {
            other.beyond
        } else if self.priority != other.priority {
            self.priority < other.priority
        } else if self.gets != other.gets {
            self.gets < other.gets
        } else {
            !self.moves && other.moves
        }
    }
}
