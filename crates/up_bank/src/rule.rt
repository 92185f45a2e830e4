//! The rule of a bank's table, and what each kind of step on it tells.
//! Word 2 i is the part of the bitmap of home frames that has the frames from 64 i on, and word 2 i + 1 the same part
//! of the bitmap of empty slots. Bits from the number of frames on are left alone.
ghost use Rattle.up_bank.specs.SeatSteps.{looked, cleared, vacated, reclaimed, restored, shed, framed, parted, second, united, merged, spent, agreed, told_apart, lends, lent_out, shown, hidden, taken_back, repaid};

use crate::kind::FrameKind;
use crate::page_bytes::PageBytes;
use crate::view::View;
use atomic_table::{Join, Play, Seat, Split, Table, TableRule};
use std::alloc::Global;

/// What a bank is told when it is made.
#[derive(Clone, Copy)]
pub struct Shape {
    pub frames: u32,
    pub kind: FrameKind,
}

pub struct Banking;

impl TableRule<Option<PageBytes>, View, Shape> for Banking {
    ghost use Rattle.up_bank.specs.Banked.{Banked, newcomer};

    ghost holds = { λ shape. Banked shape.frames };

    ghost first = { λ shape. newcomer shape.frames shape.kind };
}

pub type Board = Table<Option<PageBytes>, View, Shape, Banking, Global>;

pub type Place = Seat<Option<PageBytes>, View>;

/// A load of a word of the bitmap of home frames.
pub struct Look;

impl Play<Option<PageBytes>, View> for Look {
    ghost then = { looked };
}

/// A frame is no more at home, and its slot is taken.
pub struct Clear;

impl Play<Option<PageBytes>, View> for Clear {
    ghost then = { cleared };
}

/// An empty slot is given back.
pub struct Vacate;

impl Play<Option<PageBytes>, View> for Vacate {
    ghost then = { vacated };
}

/// An empty slot is taken.
pub struct Reclaim;

impl Play<Option<PageBytes>, View> for Reclaim {
    ghost then = { reclaimed };
}

/// A frame is at home again, and its slot is given back.
pub struct Restore;

impl Play<Option<PageBytes>, View> for Restore {
    ghost then = { restored };
}

/// A frame gets a seat of its own.
pub struct Shed;

impl Split<View> for Shed {
    ghost left = { shed };

    ghost right = { framed };
}

/// A second seat is made.
pub struct Part;

impl Split<View> for Part {
    ghost left = { parted };

    ghost right = { second };
}

/// A frame's own seat is given up, and the frame goes to another.
pub struct Regain;

impl Join<View> for Regain {
    ghost both = { united };

    ghost spent = { spent };
}

/// A seat is given up, and another knows what it knew.
pub struct Unite;

impl Join<View> for Unite {
    ghost both = { merged };

    ghost spent = { spent };
}

/// A load after a join.
pub struct Agree;

impl Play<Option<PageBytes>, View> for Agree {
    ghost then = { agreed };
}

/// A frame's seat gives out a token of its frame.
pub struct Lend;

impl Split<View> for Lend {
    ghost left = { lends };

    ghost right = { lent_out };
}

/// Another frame's seat takes the token.
pub struct Show;

impl Join<View> for Show {
    ghost both = { shown };

    ghost spent = { spent };
}

/// A load with the token in hand.
pub struct Tell;

impl Play<Option<PageBytes>, View> for Tell {
    ghost then = { told_apart };
}

/// The token is given away again.
pub struct Hide;

impl Split<View> for Hide {
    ghost left = { hidden };

    ghost right = { taken_back };
}

/// The token comes back to the seat that lent it.
pub struct Repay;

impl Join<View> for Repay {
    ghost both = { repaid };

    ghost spent = { spent };
}
