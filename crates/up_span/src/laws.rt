//! What the pages and runs of a range are, apart from how they are found. Each law is a function with an empty body.
ghost use Rattle.up_span.specs.Laws.{FirstPasses, ListsPassing, ListsRise, CountsListed, RunGoesOn, RunsApart, RunsHold, KindsParted, KindsHold, SameSetSameRuns};

/// The first page of a range that passes is the first.
pub fn first_page_is_the_first()
    ensures { FirstPasses }
{}

/// The pages that a range lists are those that pass, in order, and as many as it counts.
pub fn pages_are_listed_in_order()
    ensures pass { ListsPassing }
    ensures rise { ListsRise }
    ensures counted { CountsListed }
{}

/// A run goes on as far as pages pass.
pub fn a_run_goes_on_while_pages_pass()
    ensures { RunGoesOn }
{}

/// The runs of a range are those of its pages that pass, none of them could be longer, and they rise.
pub fn runs_are_maximal()
    ensures apart { RunsApart }
    ensures hold { RunsHold }
{}

/// The runs of one kind in a range have all its pages of a kind, none of them could be longer, and they rise.
pub fn kind_runs_are_maximal()
    ensures parted { KindsParted }
    ensures hold { KindsHold }
{}

/// Two lists of runs that lie apart are the same where they have the same pages.
pub fn one_set_is_one_list()
    ensures { SameSetSameRuns }
{}
