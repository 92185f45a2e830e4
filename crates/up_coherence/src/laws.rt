//! What each entry of the sample pager keeps true: one law for all entries that concern no claim, and one for each
//! of the others. Each is a function with an empty body, whose clauses are the law: `firm` for every disk, `coherent`
//! for one that tells its blocks.
ghost use Rattle.up_coherence.specs.Laws.{QuietStaysFirm, ResizeStaysFirm, FailStaysFirm, SupplyStaysFirm};
ghost use Rattle.up_coherence.specs.Laws.{FetchedStaysFirm, BeginStaysFirm, CopiedStaysFirm};
ghost use Rattle.up_coherence.specs.Laws.{StoredStaysFirm, EndStaysFirm, HandsMatterWhereClaimed};
ghost use Rattle.up_coherence.specs.Laws.{QuietKeepsCoherent, ResizeKeepsCoherent, FailKeepsCoherent};
ghost use Rattle.up_coherence.specs.Laws.{FetchedKeepsCoherent, SupplyKeepsCoherent, BeginKeepsCoherent};
ghost use Rattle.up_coherence.specs.Laws.{CopiedKeepsCoherent, StoredKeepsCoherent};
ghost use Rattle.up_coherence.specs.Laws.{StoreFailedKeepsCoherent, EndKeepsCoherent, CoherentReadsNewest};
ghost use Rattle.up_coherence.specs.Laws.{SoundAtFirst, SoundGoesOn};

/// What a read answers is newest.
pub fn a_read_is_newest()
    ensures { CoherentReadsNewest }
{}

/// What actors have in hand matters for pages that they claim.
pub fn hands_matter_where_claimed()
    ensures { HandsMatterWhereClaimed }
{}

/// An entry that concerns no claim, as every call of a user or an evictor.
pub fn a_quiet_entry_keeps()
    ensures firm { QuietStaysFirm }
    ensures coherent { QuietKeepsCoherent }
{}

/// A resize that cuts off no claimed page.
pub fn a_resize_keeps()
    ensures firm { ResizeStaysFirm }
    ensures coherent { ResizeKeepsCoherent }
{}

/// A fail, of a page that was fetched or that is denied.
pub fn a_fail_keeps()
    ensures firm { FailStaysFirm }
    ensures coherent { FailKeepsCoherent }
{}

/// A block was read, well or not.
pub fn a_fetch_keeps()
    ensures firm { FetchedStaysFirm }
    ensures coherent { FetchedKeepsCoherent }
{}

/// The bytes that were read are supplied.
pub fn a_supply_keeps()
    ensures firm { SupplyStaysFirm }
    ensures coherent { SupplyKeepsCoherent }
{}

/// A writeback begins.
pub fn a_begin_keeps()
    ensures firm { BeginStaysFirm }
    ensures coherent { BeginKeepsCoherent }
{}

/// Its pages are copied.
pub fn a_copy_keeps()
    ensures firm { CopiedStaysFirm }
    ensures coherent { CopiedKeepsCoherent }
{}

/// A page is stored, or its store fails.
pub fn a_store_keeps()
    ensures firm { StoredStaysFirm }
    ensures coherent { StoredKeepsCoherent }
    ensures failed { StoreFailedKeepsCoherent }
{}

/// All pages were stored, and the writeback ends.
pub fn an_end_keeps()
    ensures firm { EndStaysFirm }
    ensures coherent { EndKeepsCoherent }
{}

/// So all that is promised of a site goes on: it is coherent, its reads are newest, and no more faults are told than
/// its disk had.
pub fn all_promises_go_on()
    ensures first { SoundAtFirst }
    ensures more { SoundGoesOn }
{}
