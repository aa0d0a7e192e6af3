//! The daemon's state: its clients (programs), their threads, and their cores.
ghost use Rattle.std.specs.Prelude.{◌≡◌, ◌⊎◌, ℕ, ◌+◌, ◌<◌, ◌≤◌, IsOk, MatchOption, MatchResult, Some, None, length, map, replicate, slice_index, slice_set, true, false, ⊤, if◌then◌else◌};
ghost use Rattle.arachne_grants.specs.Sessions.{AreBelow, IsSound};

use crate::claims::Client;
use crate::grants::targets;
use crate::owners;
use crate::sessions::{ClientThread, MAX_THREADS, Session};

/// The greatest number of clients (programs that ask for cores).
pub const MAX_CLIENTS: usize = 64;

/// The greatest number of cores that a daemon may grant.
pub const MAX_CORES: usize = 1024;

/// The error of a call that the daemon's state does not allow at present. The call has changed nothing.
#[derive(Clone, Copy, Debug, PartialEq, Eq)]
pub struct Refused;

/// A core that was given to a client's thread. `place` is the thread's number within the client.
#[derive(Clone, Copy, Debug, PartialEq, Eq)]
pub struct Grant {
    pub client: usize,
    pub place: usize,
    pub core: u16,
    /// True if the thread waited for the core, so that the caller must notify the thread.
    pub waited: bool,
}

/// A core that was taken from a client's thread. `place` is the thread's number within the client.
#[derive(Clone, Copy, Debug, PartialEq, Eq)]
pub struct TakenCore {
    pub place: usize,
    pub core: u16,
}

/// The state of a daemon (an arbiter) that grants whole cores to programs, its clients.
#[derive(Drop)]
pub struct CoreArbiter {
    cores: u16,
    sessions: [Session; MAX_CLIENTS],
    allowed: [u32; MAX_CLIENTS],
    ghost few: { cores ≤ 1024 },
    ghost sound: { IsSound sessions },
    ghost below: { AreBelow sessions cores },
}

impl CoreArbiter {
    ghost use Rattle.arachne_grants.specs.Grants.{AreGrants, IsAnswer, IsLeast};
    ghost use Rattle.arachne_grants.specs.Owners.{IsNextShort};
    ghost use Rattle.arachne_grants.specs.Sessions.{core_of, core_at, gives_way, held_in, can_wait, session_at, slice_thread, thread_at, wants_of, with_thread, IsFree, IsLast, IsTaken};
    ghost use Rattle.arachne_grants.specs.Steps.{new_session, AllGiven, IsGrant, IsTake, KeepsAllowed, StaysAnswered};
    ghost use Rattle.arachne_grants.specs.declared.sessions.ClientThread.TheVariants.{Absent, Runs, Waits, On, Floats, FloatsOn};

    /// Creates an arbiter of the cores 0 to `cores` - 1, without clients.
    pub fn new(cores: u16) -> CoreArbiter
        requires { cores ≤ 1024 }
        ensures cores { result.cores ≡ cores }
        ensures empty { result.sessions ≡ replicate 64 (new_session false 0 0 0) }
        ensures none { result.allowed ≡ replicate 64 0 }
    {
        CoreArbiter {
            cores,
            sessions: [Session::NONE; MAX_CLIENTS],
            allowed: [0; MAX_CLIENTS],
        }
    }

    /// Registers a client with the number `client`. Returns an error if this number is in use or greater than 63.
    pub fn hello(
        &mut self,
        client: usize,
        priority: u8,
        reserved: u32,
        most: u32,
    ) -> Result<(), Refused>
        ensures sessions { MatchResult result
            (λ _. self.new.sessions ≡ slice_set self.old.sessions client (new_session true priority reserved most))
            (λ _. self.new.sessions ≡ self.old.sessions) }
        ensures free { IsOk result → (session_at self.old.sessions client).taken ≡ false }
        ensures within { IsOk result → client < 64 }
        ensures accepts { client < 64 → (session_at self.old.sessions client).taken ≡ false → IsOk result }
        ensures kept { KeepsAllowed self.old self.new }
    {
        if client >= MAX_CLIENTS {
            return Err(Refused);
        }
        if self.sessions[client].taken {
            return Err(Refused);
        }
        self.set(
            client,
            Session {
                taken: true,
                priority,
                reserved,
                most,
                ..Session::NONE
            },
        );
        Ok(())
    }

    /// Sets the number of cores for which a client asks in all. Returns an error if there is no such client.
    pub fn ask(&mut self, client: usize, cores: u32) -> Result<(), Refused>
        ensures sessions { MatchResult result
            (λ _. self.new.sessions ≡ slice_set self.old.sessions client (record (session_at self.old.sessions client) { asks = cores }))
            (λ _. self.new.sessions ≡ self.old.sessions) }
        ensures taken { IsOk result → (session_at self.old.sessions client).taken ≡ true }
        ensures within { IsOk result → client < 64 }
        ensures accepts { client < 64 → (session_at self.old.sessions client).taken ≡ true → IsOk result }
        ensures kept { KeepsAllowed self.old self.new }
    {
        if client >= MAX_CLIENTS {
            return Err(Refused);
        }
        let session = self.sessions[client];
        if !session.taken {
            return Err(Refused);
        }
        self.set(
            client,
            Session {
                asks: cores,
                ..session
            },
        );
        Ok(())
    }

    /// Removes a client, with all of its threads.
    pub fn leave(&mut self, client: usize)
        ensures sessions { client < 64 → self.new.sessions ≡ slice_set self.old.sessions client (new_session false 0 0 0) }
        ensures kept { KeepsAllowed self.old self.new }
    {
        if client < MAX_CLIENTS {
            self.set(client, Session::NONE);
        }
    }

    /// Adds a thread with the number `place` to a client. If `floats` is true, the thread never waits for a core.
    ///
    /// Returns an error if there is no such client, or if the thread's number is in use or greater than 63.
    pub fn join(&mut self, client: usize, place: usize, floats: bool) -> Result<(), Refused>
        ensures joins { MatchResult result
            (λ _. self.new.sessions ≡ with_thread self.old.sessions client place (if floats then Floats else Runs))
            (λ _. self.new.sessions ≡ self.old.sessions) }
        ensures absent { MatchResult result (λ _. thread_at self.old.sessions client place ≡ Absent) (λ _. ⊤) }
        ensures taken { IsOk result → (session_at self.old.sessions client).taken ≡ true }
        ensures within { IsOk result → (client < 64) × (place < 64) }
        ensures accepts { client < 64 → place < 64 → (session_at self.old.sessions client).taken ≡ true
            → thread_at self.old.sessions client place ≡ Absent → IsOk result }
        ensures kept { KeepsAllowed self.old self.new }
    {
        if client >= MAX_CLIENTS {
            return Err(Refused);
        }
        if place >= MAX_THREADS {
            return Err(Refused);
        }
        if !self.sessions[client].taken {
            return Err(Refused);
        }
        if self.thread(client, place) != ClientThread::Absent {
            return Err(Refused);
        }
        let thread = if floats {
            ClientThread::Floats
        } else {
            ClientThread::Runs
        };
        self.set_thread(client, place, thread);
        Ok(())
    }

    /// Takes the core from a thread, if it has one, and makes the thread wait until a core is granted to it.
    ///
    /// Returns an error if the thread floats (never waits for a core), already waits, or doesn't exist.
    pub fn wait(&mut self, client: usize, place: usize) -> Result<(), Refused>
        ensures waits { MatchResult result
            (λ _. self.new.sessions ≡ with_thread self.old.sessions client place Waits)
            (λ _. self.new.sessions ≡ self.old.sessions) }
        ensures can { MatchResult result (λ _. can_wait (thread_at self.old.sessions client place) ≡ true) (λ _. ⊤) }
        ensures within { IsOk result → (client < 64) × (place < 64) }
        ensures accepts { client < 64 → place < 64 → can_wait (thread_at self.old.sessions client place) ≡ true → IsOk result }
        ensures kept { KeepsAllowed self.old self.new }
    {
        if client >= MAX_CLIENTS {
            return Err(Refused);
        }
        if place >= MAX_THREADS {
            return Err(Refused);
        }
        if !self.thread(client, place).can_wait() {
            return Err(Refused);
        }
        self.set_thread(client, place, ClientThread::Waits);
        Ok(())
    }

    /// Removes a thread of a client, because the thread has ended.
    pub fn end(&mut self, client: usize, place: usize)
        ensures ends { client < 64 → place < 64 → self.new.sessions ≡ with_thread self.old.sessions client place Absent }
        ensures kept { KeepsAllowed self.old self.new }
    {
        if client < MAX_CLIENTS && place < MAX_THREADS {
            self.set_thread(client, place, ClientThread::Absent);
        }
    }

    /// Computes how many cores each client may have, from the numbers of cores for which all clients ask now.
    pub fn decide(&mut self)
        ensures promises { AreGrants (map wants_of self.new.sessions) self.new.cores self.new.allowed }
        ensures answer { IsAnswer (map wants_of self.new.sessions) self.new.cores self.new.allowed }
        ensures least { IsLeast (map wants_of self.new.sessions) self.new.cores self.new.allowed }
        ensures sessions { self.new.sessions ≡ self.old.sessions }
        ensures cores { self.new.cores ≡ self.old.cores }
    {
        let clients = self.clients();
        targets(&clients, u32::from(self.cores), &mut self.allowed);
    }

    /// Gives a free core to a thread that can take one, of a client with fewer cores than it may have.
    ///
    /// Clients of higher priority come first. Returns `None` if no core is free, or if no client has fewer cores than
    /// it may have. Also returns `None` if the first such client has no thread that can take a core.
    pub fn give(&mut self) -> Option<Grant>
        ensures gives { MatchOption result (self.new.sessions ≡ self.old.sessions)
            (λ grant. IsGrant self.old.sessions self.new.sessions self.old.allowed self.old.cores grant) }
        ensures all { result ≡ None → AllGiven self.old.sessions self.old.allowed self.old.cores }
        ensures kept { KeepsAllowed self.old self.new }
        ensures stands { StaysAnswered self.old self.new }
    {
        let short = self.next_short()?;
        let core = self.first_free()?;
        let client = usize::from(short);
        let session = self.sessions[client];
        let place = session.first_ready()?;
        let thread = session.threads[place];
        self.set_thread(client, place, thread.placed(core));
        Some(Grant {
            client,
            place,
            core,
            waited: thread.is_waiting(),
        })
    }

    /// Takes a core from a client that has more cores than it may have. Of the client's threads with a core, the one
    /// with the greatest number loses its core.
    ///
    /// If that thread floats (never waits for a core), takes the core at once. Otherwise takes the core only if `late`
    /// is true, which means that the client hasn't given a core back in time.
    pub fn take_back(&mut self, client: usize, late: bool) -> Option<TakenCore>
        ensures takes { MatchOption result (self.new.sessions ≡ self.old.sessions)
            (λ taken. IsTake self.old.sessions self.new.sessions self.old.allowed client late taken) }
        ensures enough { result ≡ None → late ≡ true → client < 64
            → held_in (session_at self.old.sessions client) ≤ slice_index self.old.allowed client }
        ensures floats { result ≡ None → client < 64
            → slice_index self.old.allowed client < held_in (session_at self.old.sessions client)
            → (place : ℕ) × (IsLast (session_at self.old.sessions client).threads 64 place
            × (gives_way (thread_at self.old.sessions client place) late ≡ false)) }
        ensures kept { KeepsAllowed self.old self.new }
        ensures stands { StaysAnswered self.old self.new }
    {
        if client >= MAX_CLIENTS {
            return None;
        }
        let session = self.sessions[client];
        if session.held() <= self.allowed[client] {
            return None;
        }
        let place = session.last_placed()?;
        let thread = session.threads[place];
        let core = thread.core()?;
        if !thread.gives_way(late) {
            return None;
        }
        self.set_thread(client, place, thread.unplaced());
        Some(TakenCore { place, core })
    }

    /// Returns the number of cores that a client may have.
    pub fn allowed_to(&self, client: usize) -> u32
        ensures { result ≡ slice_index self.now.allowed client }
    {
        self.allowed.get(client).copied().unwrap_or(0)
    }

    /// Returns the number of cores that a client has at present.
    pub fn held_by(&self, client: usize) -> u32
        ensures { result ≡ held_in (session_at self.now.sessions client) }
    {
        if client >= MAX_CLIENTS {
            return 0;
        }
        self.sessions[client].held()
    }

    /// Returns the state of the client's thread with the number `place`.
    pub fn thread(&self, client: usize, place: usize) -> ClientThread
        ensures { result ≡ thread_at self.now.sessions client place }
    {
        if client >= MAX_CLIENTS {
            return ClientThread::Absent;
        }
        self.sessions[client]
            .threads
            .get(place)
            .copied()
            .unwrap_or(ClientThread::Absent)
    }

    fn set(&mut self, client: usize, session: Session)
        requires within { client < 64 }
        requires sound { (place core : ℕ) → core_of (slice_thread session.threads place) ≡ Some core
            → core_at self.old.sessions client place ≡ Some core }
        ensures sessions { self.new.sessions ≡ slice_set self.old.sessions client session }
        ensures kept { KeepsAllowed self.old self.new }
    {
        self.sessions[client] = session;
    }

    fn set_thread(&mut self, client: usize, place: usize, thread: ClientThread)
        requires client { client < 64 }
        requires place { place < 64 }
        requires sound { (core : ℕ) → core_of thread ≡ Some core → (core < self.old.cores) × IsFree self.old.sessions core }
        ensures sessions { self.new.sessions ≡ with_thread self.old.sessions client place thread }
        ensures kept { KeepsAllowed self.old self.new }
    {
        self.sessions[client].threads[place] = thread;
    }

    fn clients(&self) -> [Client; MAX_CLIENTS]
        ensures { result ≡ map wants_of self.now.sessions }
    {
        let mut clients = [Client::NONE; MAX_CLIENTS];
        'each: for client in 0..MAX_CLIENTS {
            clients[client] = self.sessions[client].wants();
        }
        clients
    }

    fn held(&self) -> [u32; MAX_CLIENTS]
        ensures { result ≡ map held_in self.now.sessions }
    {
        let mut held = [0; MAX_CLIENTS];
        'each: for client in 0..MAX_CLIENTS {
            held[client] = self.sessions[client].held();
        }
        held
    }

    /// Returns the first client of the highest priority among those that may have more cores.
    fn next_short(&self) -> Option<u8>
        ensures { IsNextShort (map wants_of self.now.sessions) self.now.allowed (map held_in self.now.sessions) 64 result }
    {
        owners::next_short(&self.clients(), &self.allowed, &self.held())
    }

    fn first_free(&self) -> Option<u16>
        ensures { MatchOption result ((core : ℕ) → core < self.now.cores → IsTaken self.now.sessions core)
            (λ core. (core < self.now.cores) × IsFree self.now.sessions core) }
    {
        let mut marks = [false; MAX_CORES];
        'each: for session in &self.sessions {
            session.mark(&mut marks);
        }
        'look: for core in 0..self.cores {
            let marked = marks[usize::from(core)];
            if !marked {
                return Some(core);
            }
        }
        None
    }
}
