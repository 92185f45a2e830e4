ghost use Rattle.std.specs.Prelude.{◌≡◌};
ghost use Rattle.up_queues.specs.Queue.{goes_first, is_due};

use up_num::PageNo;

/// A page that may be reclaimed: its generation, the place of its last use in the journal, and that of the hint that
/// called it cold, if one came after that use.
#[derive(Clone, Copy, PartialEq, Eq, Debug)]
pub struct Queued {
    pub page: PageNo,
    pub generation: u64,
    pub place: u64,
    pub cold: Option<u64>,
}

impl Queued {
    pub(crate) fn goes_first(&self, other: &Queued) -> bool
        ensures { result ≡ goes_first self.now other.now }
    {
        let earlier = self.place < other.place
            || (self.place == other.place && self.page.0 < other.page.0);
        match (self.cold, other.cold) {
            (Some(mine), Some(theirs)) => mine < theirs || (mine == theirs && earlier),
            (Some(_), None) => true,
            (None, Some(_)) => false,
            (None, None) => earlier,
        }
    }

    pub(crate) fn is_due(&self, newest: u64, limit: u32) -> bool
        ensures { result ≡ is_due newest limit self.now }
    {
        self.cold.is_some() || u64::from(limit) <= newest.saturating_sub(self.generation).min(7)
    }
}
