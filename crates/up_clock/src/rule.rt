//! The rule of the clock's word, and what each kind of step on it tells.
ghost use Rattle.up_clock.specs.Ticks.{Ticks, newcomer, looked, began, aged, shared, new_seat, joined, spent};

use crate::view::View;
use atomic_table::{Join, Play, Split, TableRule};

pub(crate) struct Ticking;

impl TableRule<(), View, ()> for Ticking {
    ghost holds = { λ _. Ticks };

    ghost first = { λ _. newcomer };
}

// The load of `now`.
pub(crate) struct Look;

impl Play<(), View> for Look {
    ghost then = { looked };
}

// The load of `age`, which is all of it where the clock is at its end.
pub(crate) struct Begin;

impl Play<(), View> for Begin {
    ghost then = { began };
}

// The fetch of `age`.
pub(crate) struct Age;

impl Play<(), View> for Age {
    ghost then = { aged };
}

// A second seat is made.
pub(crate) struct Share;

impl Split<View> for Share {
    ghost left = { shared };

    ghost right = { new_seat };
}

// A seat is given up.
pub(crate) struct Unite;

impl Join<View> for Unite {
    ghost both = { joined };

    ghost spent = { spent };
}
