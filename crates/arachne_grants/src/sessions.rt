//! The daemon's record of one client: the cores that it asks for, and the states of its threads.
ghost use Rattle.std.specs.Prelude.{◌≡◌, ◌+◌, ◌<◌, IfSome, None, count_by, length, position};
ghost use Rattle.arachne_grants.specs.Sessions.{can_wait, core_of, gives_way, has_core, is_ready, is_usable, is_waiting, placed, unplaced, wants_of, with_mark, AreMarked, IsLastPlaced};

use crate::claims::Client;

/// The greatest number of threads of a client.
pub const MAX_THREADS: usize = 64;

/// The state of one of a client's 64 possible threads. A thread that *floats* never waits for a core, and the daemon
/// moves it to and from cores while it runs.
#[derive(Clone, Copy, Debug, PartialEq, Eq)]
pub enum ClientThread {
    /// There is no thread with this number.
    Absent,
    /// The thread runs, but has no core of its own.
    Runs,
    /// The thread waits until a core is granted to it.
    Waits,
    /// The thread runs, and has this core for itself.
    On(u16),
    /// The thread floats (never waits for a core), and has no core of its own.
    Floats,
    /// The thread floats (never waits for a core), and has this core.
    FloatsOn(u16),
}

#[derive(Clone, Copy)]
pub(crate) struct Session {
    /// True if a client has this number now.
    pub taken: bool,
    /// The client's priority. 0 is the highest.
    pub priority: u8,
    /// The number of cores reserved for the client, which it gets before any client gets more than its own reserve.
    pub reserved: u32,
    /// The greatest number of cores that the client may ask for.
    pub most: u32,
    /// The number of cores for which the client asks in all, those that it has included.
    pub asks: u32,
    pub threads: [ClientThread; MAX_THREADS],
}

impl ClientThread {
    /// Returns the core that the thread has, or `None` if it has none.
    pub fn core(self) -> Option<u16>
        ensures { result ≡ core_of self }
    {
        match self {
            ClientThread::On(core) | ClientThread::FloatsOn(core) => Some(core),
            _ => None,
        }
    }

    pub(crate) fn has_core(self) -> bool
        ensures { result ≡ has_core self }
    {
        self.core().is_some()
    }

    pub(crate) fn is_ready(self) -> bool
        ensures { result ≡ is_ready self }
    {
        matches!(self, ClientThread::Waits | ClientThread::Floats)
    }

    pub(crate) fn is_waiting(self) -> bool
        ensures { result ≡ is_waiting self }
    {
        matches!(self, ClientThread::Waits)
    }

    pub(crate) fn can_wait(self) -> bool
        ensures { result ≡ can_wait self }
    {
        matches!(self, ClientThread::Runs | ClientThread::On(_))
    }

    pub(crate) fn is_usable(self) -> bool
        ensures { result ≡ is_usable self }
    {
        self.has_core() || self.is_ready()
    }

    /// Returns true if the daemon may take the thread's core.
    ///
    /// That of a thread that floats may always be taken, and any other only if the client is late to give a core back.
    pub(crate) fn gives_way(self, late: bool) -> bool
        ensures { result ≡ gives_way self late }
    {
        late || matches!(self, ClientThread::FloatsOn(_))
    }

    pub(crate) fn placed(self, core: u16) -> ClientThread
        ensures { result ≡ placed self core }
    {
        match self {
            ClientThread::Floats => ClientThread::FloatsOn(core),
            _ => ClientThread::On(core),
        }
    }

    pub(crate) fn unplaced(self) -> ClientThread
        ensures { result ≡ unplaced self }
    {
        match self {
            ClientThread::On(_) => ClientThread::Runs,
            ClientThread::FloatsOn(_) => ClientThread::Floats,
            _ => self,
        }
    }
}

impl Session {
    /// The record of a client number that no program has.
    pub(crate) const NONE: Session = Session {
        taken: false,
        priority: 0,
        reserved: 0,
        most: 0,
        asks: 0,
        threads: [ClientThread::Absent; MAX_THREADS],
    };

    pub(crate) fn held(&self) -> u32
        ensures { result ≡ count_by has_core self.now.threads }
    {
        self.threads
            .iter()
            .filter(|thread| thread.has_core())
            .count() as u32
    }

    fn usable(&self) -> u32
        ensures { result ≡ count_by is_usable self.now.threads }
    {
        self.threads
            .iter()
            .filter(|thread| thread.is_usable())
            .count() as u32
    }

    /// Returns the client's request, as an argument for [`targets`](crate::targets).
    ///
    /// It is for no more cores than the client may ask for, or than its threads can use.
    pub(crate) fn wants(&self) -> Client
        ensures { result ≡ wants_of self.now }
    {
        Client {
            priority: self.priority,
            reserved: self.reserved,
            asks: self.asks.min(self.most).min(self.usable()),
            held: self.held(),
        }
    }

    /// Returns the lowest number, within the client, of a thread that can take a core.
    pub(crate) fn first_ready(&self) -> Option<usize>
        ensures first { result ≡ position is_ready self.now.threads }
        ensures within { IfSome result (λ place. place < 64) }
    {
        self.threads.iter().position(|thread| thread.is_ready())
    }

    /// Returns the highest number, within the client, of a thread that has a core.
    pub(crate) fn last_placed(&self) -> Option<usize>
        ensures last { IsLastPlaced self.now.threads 64 result }
        ensures none { result ≡ None → count_by has_core self.now.threads ≡ 0 }
    {
        let mut last = None;
        'look: for place in 0..MAX_THREADS {
            last = self.last_of(last, place);
        }
        last
    }

    fn last_of(&self, last: Option<usize>, place: usize) -> Option<usize>
        requires within { place < 64 }
        requires last { IsLastPlaced self.now.threads place last }
        ensures { IsLastPlaced self.now.threads (place + 1) result }
    {
        if self.threads[place].has_core() {
            Some(place)
        } else {
            last
        }
    }

    /// Sets `marks` to true at the index of each core that one of the client's threads has.
    pub(crate) fn mark(&self, marks: &mut [bool])
        ensures { AreMarked marks.old marks.new self.now.threads (length self.now.threads) }
    {
        'each: for thread in &self.threads {
            mark_core(thread.core(), marks);
        }
    }
}

fn mark_core(core: Option<u16>, marks: &mut [bool])
    ensures { marks.new ≡ with_mark core marks.old }
{
    let Some(core) = core else {
        return;
    };
    if usize::from(core) < marks.len() {
        marks[usize::from(core)] = true;
    }
}
