//! What follows where one thread does what actors wish, line by line.

ghost use Rattle.up_steps.specs.Laws.{StepsFollow, StepsDecide, LinesDecide, KeepsRules};
ghost use Rattle.up_steps.specs.Deciding.{TurnsDecide, SyncsDecide, LegalTurnsDecide, LegalSyncsDecide};
ghost use Rattle.up_steps.specs.Worked.{WaitsAreSteps, ChangesAreSteps, LoansAreSteps, ReliefsAreSteps};
ghost use Rattle.up_steps.specs.Row.{IsOneThreads, HasItsSteps, RefusesMore, RefusesOther, RefusesNothing, TellsNoOthers};

/// Where each event follows on what its actor said, is done exactly, and the lines are gone through in order, all entries are the steps of these lines.
pub fn doing_wishes_makes_the_steps()
    ensures { StepsFollow }
{}

/// Two lists of entries that are the steps of the same lines, and whose replies are given by the same rule, are one list. So lines decide all entries of
/// objects with given births, where these have legal journals.
pub fn the_steps_decide_the_entries()
    ensures steps { StepsDecide }
    ensures legal { LinesDecide }
{}

/// So many steps of a worker from its task, and the steps of a sync up to where it rests, are one list of
/// entries each, and lead to one task or one rest: once it is given how each call on a disk went, which
/// bytes a supply brings, and each reply, which legal journals give.
pub fn turns_and_syncs_are_decided()
    ensures turns { TurnsDecide }
    ensures syncs { SyncsDecide }
    ensures legal_turns { LegalTurnsDecide }
    ensures legal_syncs { LegalSyncsDecide }
{}

/// While a call of an actor is pending, its next entry that is no evict is for that call, and while it holds a ticket it is the retry of it.
pub fn each_actor_keeps_the_rules()
    ensures { KeepsRules }
{}

/// A read that blocks, a packet, a supply and a go, as they happen, are one thread's, and their entries are the steps of these lines.
pub fn a_small_script_is_done_so()
    ensures happens { IsOneThreads }
    ensures steps { HasItsSteps }
{}

/// Four worked scripts have their steps: between them they have each form of line that is done, accesses that wait and are failed,
/// lines that are put off, calls that are told how many frames they need, loans, reliefs, and a scan where reliefs give none.
pub fn worked_scripts_have_their_steps()
    ensures waits { WaitsAreSteps }
    ensures changes { ChangesAreSteps }
    ensures loans { LoansAreSteps }
    ensures reliefs { ReliefsAreSteps }
{}

/// One frame too many, an entry of another actor, and a line that isn't done are no steps of a line. A turn and a sync
/// have no steps at all.
pub fn other_entries_are_no_steps()
    ensures more { RefusesMore }
    ensures other { RefusesOther }
    ensures nothing { RefusesNothing }
    ensures untold { TellsNoOthers }
{}
