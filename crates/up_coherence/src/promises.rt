//! What was reached and what is durable, a sync's promise, and the end. Each law is a function with an empty
//! body.
ghost use Rattle.up_coherence.specs.Durable.{ReachedIsGreatest, ReachedCounts};
ghost use Rattle.up_coherence.specs.Promises.{ReachedWithin, ReachedGrows, DurableGrows, DurableIsReached};
ghost use Rattle.up_coherence.specs.Promises.{RestingIsReached, StoredIsReached, SyncBegins, SyncGoesOn};
ghost use Rattle.up_coherence.specs.Promises.{SyncGetsLess, SyncIsClear, SyncIsFlushed, LastLeavesNone};
ghost use Rattle.up_coherence.specs.Promises.{DetachedStaysClean, CleanIsOnDisk};

/// What was reached and what is durable never fall, and the second isn't above the first.
pub fn dates_never_fall()
    ensures within { ReachedWithin }
    ensures reached { ReachedGrows }
    ensures durable { DurableGrows }
    ensures below { DurableIsReached }
{}

/// What was reached is the greatest moment that counts: at which the page rested, or at which a writeback began that
/// stored it.
pub fn what_was_reached_is_the_greatest()
    ensures greatest { ReachedIsGreatest }
    ensures counts { ReachedCounts }
{}

/// A page that rests was reached now; one that is stored was reached at its begin.
pub fn what_is_written_back_is_reached()
    ensures rests { RestingIsReached }
    ensures stored { StoredIsReached }
{}

/// A sync keeps its promise over the entries of others: once no page of its set is unclean all was reached, and a
/// good sync of the disk makes it durable.
pub fn a_sync_keeps_its_promise()
    ensures begins { SyncBegins }
    ensures more { SyncGoesOn }
    ensures less { SyncGetsLess }
    ensures clear { SyncIsClear }
    ensures flushed { SyncIsFlushed }
{}

/// Where the last worker rests nothing is unclean, nothing becomes so while nobody writes, and each block is
/// newest.
pub fn nothing_is_unclean_at_the_end()
    ensures none { LastLeavesNone }
    ensures stays { DetachedStaysClean }
    ensures blocks { CleanIsOnDisk }
{}
