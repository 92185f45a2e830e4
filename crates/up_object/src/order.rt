//! The order of reclaiming: what the queues of an object have of its journal.
ghost use Rattle.std.specs.Prelude.{◌≡◌, map, take, max, IfOk};
ghost use Rattle.up_num.specs.Pages.{page_number};
ghost use Rattle.up_model.specs.Use.{newest_epoch};
ghost use Rattle.up_model.specs.Order as orders;
ghost use Rattle.up_object.specs.Ordering.{QueueIsOrder, QueueOfObject};

use crate::object::Object;
use std::alloc::Global;
use up_num::{Memory, PageSeq};

/// A queue that is kept page by page is the order of reclaiming of the whole journal, and an object keeps its queue so.
pub fn the_queue_is_the_order()
    ensures one { QueueIsOrder }
    ensures object { QueueOfObject }
{}

impl Object {
    /// The greatest epoch of all entries.
    pub fn newest(&self) -> u64
        ensures { result ≡ newest_epoch self.now.journal }
    {
        self.newest
    }

    /// The pages that an evict of this epoch makes absent: the first `most` that are cold or at least `limit` old.
    pub fn oldest(
        &self,
        alloc: Global,
        epoch: u64,
        limit: u32,
        most: u32,
    ) -> Result<PageSeq, Memory>
        ensures { IfOk result (λ pages. pages ≡ map page_number (take most (orders.order self.now.birth self.now.journal (max epoch (newest_epoch self.now.journal)) limit))) }
    {
        let _ = self.queues.len();
        self.queues
            .oldest(alloc, epoch.max(self.newest), limit, most)
    }
}
