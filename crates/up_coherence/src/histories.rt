//! What holds over every list of entries, by any actors: a site stays coherent, its reads are newest, and what a stop
//! leaves has a date. Each law is a function with an empty body.
ghost use Rattle.up_coherence.specs.Histories.{RunsStayCoherent, RunsReadNewest, RunsLeaveDated, RunsCopyDated};
ghost use Rattle.up_coherence.specs.Histories.{RunsBlockDated, RunsReachStored, SyncLeavesStored};

/// Whatever steps any actors make, the site is coherent after each.
pub fn a_site_stays_coherent()
    ensures { RunsStayCoherent }
{}

/// Each read gave the newest bytes.
pub fn each_read_is_newest()
    ensures { RunsReadNewest }
{}

/// What a stop may leave of a page is its newest bytes of one moment, no earlier than what is durable.
pub fn what_a_stop_leaves_is_dated()
    ensures left { RunsLeaveDated }
    ensures copy { RunsCopyDated }
    ensures block { RunsBlockDated }
{}

/// A page that was stored was reached at the begin of its writeback, and a sync that began no later waits no longer for
/// it.
pub fn a_stored_page_is_reached()
    ensures reached { RunsReachStored }
    ensures sync { SyncLeavesStored }
{}
