//! Laws over all journals. Each is a function with an empty body, whose clause is the law.
ghost use Rattle.up_model.specs.Laws.{WhoWaitsMayRetry, WhatWaitsLiesInAPage};

/// An actor that waits may retry its ticket.
pub fn who_waits_may_retry()
    ensures { WhoWaitsMayRetry }
{}

/// An access that waits has bytes, all in one page.
pub fn what_waits_lies_in_a_page()
    ensures { WhatWaitsLiesInAPage }
{}
