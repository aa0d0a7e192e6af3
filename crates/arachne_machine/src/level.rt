//! The indices and counts of each of the threads that run nested inside one thread slot.
ghost use Rattle.std.specs.Prelude.{◌≡◌, ◌+◌, ◌≤◌, ◌<◌, ◌^◌, ℕ, ◌++◌, false, length, reverse, vec_len, vec_capacity, IsTrue};
ghost use Rattle.arachne_machine.specs.Strands.{Fits, moved_parents};

use crate::frame::Control;

/// The indices and counts of one thread in a `State`, which has several if threads run inside their parent's slot.
#[derive(Clone, Copy)]
pub struct Level {
    /// The index of this thread's first stack frame. Earlier frames belong to the threads that wait for this one.
    pub start: usize,
    pub forks: u64,
    /// The index of this thread's report line in `State::lines`. The slot's owner (`outermost`) has no line there.
    pub place: usize,
}

impl Level {
    pub fn outermost() -> Level
        ensures { result ≡ record { start = 0; forks = 0; place = 0 } }
    {
        Level {
            start: 0,
            forks: 0,
            place: 0,
        }
    }

    /// Returns the indices that this thread has after its state was appended to another state with `start` frames.
    ///
    /// `outermost` is true for the moved state's outermost thread (its slot's owner), whose report line gets index
    /// `place`. The lines of the other threads in that slot follow.
    #[inline(always)]
    pub fn moved(self, outermost: bool, start: usize, place: usize) -> Level
        requires start { start + self.start < 2 ^ 64 }
        requires place { outermost ≡ false → place + 1 + self.place < 2 ^ 64 }
        ensures outermost { IsTrue outermost → result ≡ record { start = start + self.start; forks = self.forks; place = place } }
        ensures other { outermost ≡ false → result ≡ record { start = start + self.start; forks = self.forks; place = place + 1 + self.place } }
    {
        let place = if outermost {
            place
        } else {
            place + 1 + self.place
        };
        Level {
            start: start + self.start,
            forks: self.forks,
            place,
        }
    }
}

#[derive(Clone, Copy)]
pub struct Parent<'p> {
    pub level: Level,
    pub control: Control<'p>,
}

/// Appends the waiting threads `others` of a state that is moved into this one.
///
/// `start` is the number of frames before those of `others`, and `place` the index of the moved state's first line.
pub fn move_parents<'p>(
    parents: &mut Vec<Parent<'p>>,
    others: &[Parent<'p>],
    start: usize,
    place: usize,
)
    requires room { vec_len parents.old + length others.now ≤ vec_capacity parents.old }
    requires fits { (from at frames lines : ℕ) × Fits (reverse others.now) from at frames lines × (start + frames < 2 ^ 64) × (place + 1 + lines < 2 ^ 64) }
    ensures { reverse parents.new.items ≡ moved_parents start place (reverse others.now) ++ reverse parents.old.items }
{
    for i in 0..others.len() {
        let parent = others[i];
        parents.push_reserved(Parent {
            level: parent.level.moved(i == 0, start, place),
            control: parent.control,
        });
    }
}
