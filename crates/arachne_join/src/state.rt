//! The four states of a cell, and the value of the cell's atomic word for each.
ghost use Rattle.std.specs.Prelude.{◌≡◌};
ghost use Rattle.arachne_join.specs.States.{state_of};

pub(crate) const EMPTY: u64 = 0;

pub(crate) const FULL: u64 = 1;

pub(crate) const TAKEN: u64 = 2;

pub(crate) const WAITING: u64 = 3;

/// The state of a cell, which carries one value. The slot is the cell's field for that value.
///
/// | State | The slot | Next state |
/// |---|---|---|
/// | `Empty` | belongs to the sending end | `Full` by `leave`, `Waiting` by `put_back` |
/// | `Full` | has a value that fits the key | `Taken` by `fetch` |
/// | `Waiting` | has a value that may wait | `Empty` by `take_back` |
/// | `Taken` | has no value any more | none |
#[derive(Clone, Copy, Debug, PartialEq, Eq)]
pub enum CellState {
    Empty,
    Full,
    Taken,
    Waiting,
}

impl CellState {
    pub(crate) fn of(word: u64) -> CellState
        ensures { result ≡ state_of word }
    {
        match word {
            EMPTY => CellState::Empty,
            FULL => CellState::Full,
            TAKEN => CellState::Taken,
            _ => CellState::Waiting,
        }
    }
}
