//! Test cases for a pool over the table of atomic words: what its workers do, and how many jobs must be left.
ghost use Rattle.std.specs.Prelude.{◌≡◌, ◌<◌, IfSome};
ghost use Rattle.arachne_pool.specs.Workers.{IsWorkerOf};

use crate::board::Board;
use crate::rounds::{Bench, Row, Share, begin, end};
use crate::serving;
use crate::spells::Spell;
use crate::tasks::Task;
use arachne_contexts::{Contexts, Seats};
use arachne_pool::{Pool, Spawned};
use arachne_team::{Team, TeamFault, work_together};
use arachne_words::WordContexts;
use std::alloc::Global;
use std::sync::{Arc, Wait};
use std::test::Fail;
use std::thread::Threads;
use std::time::Clock;

type Table = WordContexts<Spawned<Task>>;

const TREES: &str = "works 0 | spawns 3 tree | spawn tree in-turn bound=5";

pub(crate) const TO_THE_END: (Spell, Spell) = (Spell::ToTheEnd, Spell::ToTheEnd);

pub(crate) const NOTHING: Row = Row {
    shows: "nothing",
    cores: 1,
    slots: 1,
    orders: "",
    acts: "",
    spells: (Spell::Not, Spell::Not),
    busy: 0,
    then: "",
    left: (0, 0),
    alive: 0,
};

const ROWS: &[Row] = &[
    Row {
        shows: "a pool that is stopped hands back what is left, with a place, in one, and without",
        cores: 2,
        acts: "works 0 | spawn alone parent | spawn steps=10 | spawn steps=10 | spawn leaf | turns 0 1 | lives 5 \
            | stops | works 0 | works 1 | lives 5",
        left: (2, 2),
        alive: 5,
        ..NOTHING
    },
    Row {
        shows: "a job that waits is not stepped, and its child's end wakes it",
        cores: 2,
        acts: "spawn alone parent | alone 0 1 | open 1 0 | turns 0 1 | alone 1 1 | lives 2 | turns 0 2 | turns 0 0 \
            | lives 2 | turns 1 1 | open 1 0 | lives 1 | turns 0 1 | lives 0 | turns 0 0",
        ..NOTHING
    },
    Row {
        shows: "a slice has as many steps as its bound says, one where that is 0",
        slots: 2,
        acts: "spawn steps=10 bound=4 | turns 0 2 | lives 1 | turns 0 1 | lives 0 | spawn bound=0 steps=1 | turns 0 1 \
            | lives 1 | turns 0 1 | lives 0",
        ..NOTHING
    },
    Row {
        shows: "a job without a place has no slice, and gets a place once one is free",
        acts: "works 0 | spawn steps=1 | spawn steps=10 | spawn steps=10 | open 0 1 | lives 3 | turns 0 2 | lives 2 \
            | open 0 1 | works 0 | lives 0 | open 0 0",
        ..NOTHING
    },
    Row {
        shows: "a job runs the children for which there is no place in its own",
        acts: "works 0 | spawn tree | spawn tree in-turn | works 0 | counts 242 | lives 0",
        ..NOTHING
    },
    Row {
        shows: "the oldest child that waits with its parent gets a place once one is free",
        slots: 2,
        acts: "spawn steps=3 | spawn parent forks=2 | turns 0 3 | open 0 2 | lives 4 | turns 0 1 | open 0 2 | lives 2 \
            | works 0 | lives 0 | open 0 0 | counts 4",
        ..NOTHING
    },
    Row {
        shows: "of two children that wait with their parent the oldest says whether it gets a core for itself",
        cores: 2,
        acts: "spawn alone | spawn parent never forks=2 steps=1 first-alone | turns 1 4 | lives 4 | turns 0 1 \
            | open 0 0 | turns 1 1 | alone 0 1 | turns 0 2 | lives 2 | works 0 | lives 0",
        ..NOTHING
    },
    Row {
        shows: "children that nobody joins and that have not begun go on, and end",
        acts: "spawn parent never forks=3 | turns 0 3 | lives 4 | turns 0 1 | lives 3 | works 0 | lives 0 | counts 4",
        ..NOTHING
    },
    Row {
        shows: "an exclusive job gets an empty core, and no other job comes there",
        cores: 2,
        slots: 4,
        acts: "spawn alone | alone 0 1 | spawn leaf | spawn leaf | spawn leaf | alone 0 1 | open 1 3 | turns 0 1 \
            | open 0 0 | lives 3 | turns 1 1 | lives 0",
        ..NOTHING
    },
    Row {
        shows: "where no core is empty an exclusive job shares one",
        slots: 4,
        acts: "spawn leaf | spawn alone | open 0 2 | works 0 | lives 0",
        ..NOTHING
    },
    Row {
        shows: "a core that is taken back is closed, and its jobs are moved; one that is granted takes jobs again",
        cores: 2,
        slots: 4,
        orders: "2 release 1, 8 grant 1",
        acts: "spawn alone | spawn steps=10 | open 1 1 | turns 0 1 | turns 1 1 | open 1 1 | turns 0 1 | closed 1 0 \
            | open 0 1 | turns 0 5 | closed 1 0 | turns 0 1 | open 1 0 | works 0 | lives 0",
        ..NOTHING
    },
    Row {
        shows: "jobs are moved from a closed core while another one keeps the job that is alone there",
        cores: 3,
        slots: 2,
        orders: "0 release 1, 0 release 2",
        acts: "spawn alone | spawn alone | spawn leaf | alone 1 1 | open 2 1 | turns 0 2 | closed 2 0 | lives 1",
        left: (1, 0),
        alive: 1,
        ..NOTHING
    },
    Row {
        shows: "new orders leave closed what was closed, and can grant each of many cores",
        cores: 20,
        orders: "0 release 1, 0 release 18",
        acts: "turns 0 0 | closed 1 0 | open 17 0 | closed 18 0 | orders 0 release 2 | turns 0 0 | closed 1 0 \
            | closed 2 0 | closed 18 0 | orders 0 grant 1, 0 grant 18 | turns 0 0 | open 1 0 | closed 2 0 | open 17 0 \
            | open 18 0 | orders | turns 0 0 | open 1 0 | closed 2 0",
        ..NOTHING
    },
    Row {
        shows: "children of a job that doesn't join them go on, and end",
        cores: 4,
        acts: "spawn alone parent never forks=3 | turns 0 4 | lives 3 | turns 1 1 | turns 2 1 | turns 3 1 | lives 0",
        ..NOTHING
    },
    Row {
        shows: "two kernel threads end trees on cores of one place",
        cores: 2,
        acts: TREES,
        spells: TO_THE_END,
        then: "lives 0 | counts 484",
        ..NOTHING
    },
    Row {
        shows: "trees of exclusive jobs end, of which most find no empty core",
        cores: 2,
        slots: 3,
        acts: "spawn alone tree",
        spells: TO_THE_END,
        then: "lives 0 | counts 121",
        ..NOTHING
    },
    Row {
        shows: "trees end while a core comes and goes, and its kernel thread is woken at the last end",
        cores: 2,
        slots: 2,
        orders: "0 release 1, 50 grant 1, 100 release 1, 200 grant 1, 300 release 1, 1000000000 grant 1",
        acts: TREES,
        spells: TO_THE_END,
        then: "lives 0 | counts 484",
        ..NOTHING
    },
    Row {
        shows: "a stop ends a kernel thread that works and leaves all jobs",
        cores: 2,
        acts: "works 0 | spawn endless | spawn endless | spawn endless",
        spells: (Spell::Rounds(100), Spell::ToTheEnd),
        then: "lives 3",
        left: (2, 1),
        alive: 3,
        ..NOTHING
    },
    Row {
        shows: "a stop wakes a kernel thread that is parked",
        cores: 2,
        orders: "0 release 1",
        acts: "spawn endless",
        spells: (Spell::Rounds(10_000), Spell::ToTheEnd),
        then: "lives 1",
        left: (1, 0),
        alive: 1,
        ..NOTHING
    },
    Row {
        shows: "the last end wakes a kernel thread that is parked",
        cores: 2,
        orders: "0 release 1",
        acts: "turns 0 0 | closed 1 0 | spawn steps=2000000 bound=1000",
        spells: TO_THE_END,
        then: "lives 0",
        ..NOTHING
    },
    Row {
        shows: "the last end wakes a kernel thread that is parked, where it comes in a round of a caller's own loop",
        cores: 2,
        orders: "0 release 1",
        acts: "turns 0 0 | closed 1 0 | spawn steps=2000000 bound=1000",
        spells: (Spell::Rounds(u32::MAX), Spell::ToTheEnd),
        then: "lives 0",
        ..NOTHING
    },
    Row {
        shows: "a kernel thread of a closed core that keeps jobs is not parked before they have places",
        cores: 2,
        orders: "5 release 1",
        acts: "spawn alone steps=3000000 bound=1000 | spawn parent forks=2 steps=1000 never",
        spells: TO_THE_END,
        then: "lives 0 | counts 4",
        ..NOTHING
    },
    Row {
        shows: "a kernel thread of a closed core is not parked while its worker has orders to come",
        cores: 2,
        orders: "0 release 1, 3 grant 1",
        acts: "turns 0 0 | closed 1 0 | spawn endless alone",
        spells: (Spell::ToTheEndOn(1), Spell::TurnsUntilOpen(0)),
        then: "open 1 0 | lives 1",
        left: (1, 0),
        alive: 1,
        ..NOTHING
    },
    Row {
        shows: "a round that is refused memory tells it, and the next one that is refused none does not",
        acts: "spawn parent | hoards | turns-in-need 0 | turns-in-need 0 | frees | turns 0 1 | works 0 | lives 0",
        ..NOTHING
    },
    Row {
        shows: "a kernel thread that works returns once the other one is refused memory for a fork, which stops the pool",
        cores: 2,
        acts: "spawn alone parent | spawn endless",
        spells: (Spell::InNeed, Spell::ToTheEnd),
        then: "answered 0 | lives 3",
        left: (2, 0),
        alive: 3,
        ..NOTHING
    },
    Row {
        shows: "where memory is refused that is told, and all is done at last",
        slots: 2,
        acts: "ends-in-need depth=3 forks=4 | counts 85",
        ..NOTHING
    },
];

#[derive(Drop)]
struct Crew<'p, C: Seats> {
    pool: &'p Pool<C>,
    board: &'p Arc<Board>,
    spells: (Spell, Spell),
}

impl<'p, C: Contexts<Spawned<Task>>> Team<Share<C::Seat>> for Crew<'p, C> {
    ghost has = { λ crew share. IsWorkerOf crew.pool.now share.worker };

    ghost size = { λ crew. 2 };

    fn size(&self) -> u8 {
        2
    }

    fn part_off<R: Wait>(
        &self,
        rt: &R,
        share: Share<C::Seat>,
    ) -> (Share<C::Seat>, Option<Share<C::Seat>>) {
        let (own, theirs) = self.pool.split(rt, share.worker);
        let own = Share {
            worker: own,
            busy: 0,
        };
        let theirs = Share {
            worker: theirs,
            busy: 0,
        };
        (own, Some(theirs))
    }

    fn work<R: Wait + Clock>(
        &self,
        rt: &R,
        number: u8,
        share: Share<C::Seat>,
    ) -> Option<Share<C::Seat>> {
        let Share { mut worker, .. } = share;
        let (zero, one) = self.spells;
        let spell = if number == 0 { zero } else { one };
        let bench = Bench {
            rt,
            pool: self.pool,
            board: self.board,
        };
        bench.work(&mut worker, number, spell);
        let busy = usize::from(worker.tally().ended > 0);
        Some(Share { worker, busy })
    }

    fn join<R: Wait>(
        &self,
        rt: &R,
        share: Share<C::Seat>,
        other: Share<C::Seat>,
    ) -> Option<Share<C::Seat>> {
        let worker = self.pool.join_workers(rt, share.worker, other.worker).ok()?;
        let busy = share.busy.saturating_add(other.busy);
        Some(Share { worker, busy })
    }

    fn fail<R: Wait>(&self, _rt: &R, _fault: TeamFault) {
        self.pool.stop();
    }
}

/// Returns `None` if a result of the test case isn't the expected one, or memory is refused.
fn holds<R: Threads + Wait + Clock + Sync>(rt: &R, alloc: Global, row: &Row) -> Option<()> {
    let board = Board::new(alloc)?;
    let (pool, worker) = begin::<Table, R>(rt, &board, row)?;
    let crew = Crew {
        pool: &pool,
        board: &board,
        spells: row.spells,
    };
    let share = work_together(rt, alloc, &crew, Share { worker, busy: 0 })?;
    end::<Table, R>(rt, &board, pool, share, row)
}

#[test]
fn each_row_holds(rt: HostRuntime) -> Result<(), Fail> {
    for rows in [ROWS, serving::ROWS] {
        for row in rows {
            assert!(rt; holds(&rt, rt.alloc(), row).is_some(), "{}", row.shows);
        }
    }
    Ok(())
}
