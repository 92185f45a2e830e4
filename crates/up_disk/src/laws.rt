//! Laws over what a stop leaves. Each is a function with an empty body, whose clauses are the law.
ghost use Rattle.up_disk.specs.Laws.{ContentsMayBeLeft, SameAreTold, EachToldOnce, WriteAddsItsContent, OthersAddNone};

use crate::Disk;

/// A stop now may leave a content in a block of a disk in memory exactly where the block had it since the last sync.
pub fn contents_since_the_sync_may_be_left()
    ensures { ContentsMayBeLeft }
{}

/// What is told of a block has the same contents, and each once.
pub fn contents_are_told_once()
    ensures same { SameAreTold }
    ensures once { EachToldOnce }
{}

/// On any disk a write adds to what may be left in its block the new content, and nothing to any other block.
pub fn a_write_adds_its_content_alone<D: Disk>()
    ensures { WriteAddsItsContent D.lasts D.time D.leaves }
{}

/// On any disk a read or a sync adds nothing to what may be left in a block.
pub fn other_calls_add_no_content<D: Disk>()
    ensures { OthersAddNone D.time D.leaves }
{}
