//! What a worker's turns and a user's sync are, as entries of their object.

ghost use Rattle.up_turns.specs.Laws.{TurnsAreSteps, SyncsAreSteps, NextSuits, NextSyncSuits, AskingStays, EvictsStay, OthersStay, StepFits, FramedStepFits};
ghost use Rattle.up_turns.specs.Touring.{StepsMakeTours, TurnsMakeTours, SyncsMakeTours, WaitsWithoutClaim};

/// What is made for the wishes of a worker's turns, up to their end, is so many steps, from the task that the
/// worker had.
pub fn turns_are_so_many_steps()
    ensures { TurnsAreSteps }
{}

/// What is made for the wishes of a sync, up to where it waits or its end, is its steps; also from where it
/// waited.
pub fn a_sync_is_its_steps()
    ensures { SyncsAreSteps }
{}

/// Where an actor's task goes with its claim, the next one does after a step that asks for no frames, where
/// each begin is accepted. A step that asks for frames, evicts, and what others make leave the claim.
pub fn a_task_goes_with_its_claim()
    ensures worker { NextSuits }
    ensures sync { NextSyncSuits }
    ensures asking { AskingStays }
    ensures evicts { EvictsStay }
    ensures others { OthersStay }
{}

/// The step of a task that goes with the claim may be made, with the frames that are gathered first.
pub fn a_task_that_goes_with_its_claim_may_be_done()
    ensures bare { StepFits }
    ensures framed { FramedStepFits }
{}

/// What a step makes, whose task goes with its actor's claim, is what the actor may make by that claim: so
/// its entries on an object are tours.
pub fn steps_make_tours()
    ensures { StepsMakeTours }
{}

/// A worker's turns and a sync make tours, where they begin with a task that goes with the claim and each
/// begin is accepted; so the next turn begins with such a task too. A sync that waits has no claim.
pub fn turns_and_syncs_make_tours()
    ensures turns { TurnsMakeTours }
    ensures syncs { SyncsMakeTours }
    ensures waits { WaitsWithoutClaim }
{}
