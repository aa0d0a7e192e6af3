//! The facts about one core that the entries of a log read so far have shown.
use arachne_core::ThreadId;

/// The facts about one core that the log has shown up to the core's last entry.
#[derive(Clone, Copy, Default)]
pub(crate) struct Core {
    pub(crate) next: u64,
    /// The number of slices that the core has reported as ended.
    pub(crate) ended: u64,
    /// True if the core's last log entry says that a slice has ended.
    pub(crate) ends_slice: bool,
    pub(crate) turn: Option<ThreadId>,
    pub(crate) is_in_slice: bool,
    /// The thread that has this core to itself.
    pub(crate) alone: Option<ThreadId>,
    /// True if the core is closed according to the orders that core 0 has reported.
    pub(crate) is_closed: bool,
    /// The number of the core's last log entry.
    pub(crate) last: usize,
    pub(crate) was_closed: bool,
    /// How often orders have opened the core while it was closed. The worker may wake up once from a park for each.
    pub(crate) grants: u64,
    pub(crate) unparks: u64,
    /// The number of the last entry that reported threads moved to this core, plus 1; or 0 if there is none.
    pub(crate) moved: usize,
    pub(crate) owes_move: bool,
    /// True if a thread that was on the core when the core parked is there again without a report of its move.
    pub(crate) owes_return: bool,
    pub(crate) owes_close: bool,
}

impl Core {
    /// Returns the number of slices that the core has ended, each with a later entry of the core.
    pub(crate) fn counted(&self) -> u64 {
        self.ended.saturating_sub(u64::from(self.ends_slice))
    }
}
