//! How the list of all claims and each actor's claim go together. Each law is a function with an empty body.
ghost use Rattle.up_claims.specs.Listed.{ListedAreClaims, ListedOnce, UnclaimedIsFree, HeldIsClaimed, ClaimedHasOver, OverIsTheHolders};

/// The list has each actor's claim, once.
pub fn the_list_has_each_claim()
    ensures are { ListedAreClaims }
    ensures once { ListedOnce }
{}

/// A page is claimed exactly where an actor's claim has it, or a claim is over it.
pub fn a_page_is_claimed_by_an_actor()
    ensures free { UnclaimedIsFree }
    ensures held { HeldIsClaimed }
    ensures over { ClaimedHasOver }
{}

/// Where no two actors claim one page, the claim over a page is that of the actor who has it.
pub fn the_claim_over_a_page_is_the_holders()
    ensures { OverIsTheHolders }
{}
