ghost use Rattle.std.specs.Prelude.{ℕ, Bool, List};
ghost use Rattle.std.specs.Borrow.{ftrue};
ghost use Rattle.up_bank.specs.Bytes.{Given};
ghost use Rattle.up_bank.specs.Find.{Find};
ghost use Rattle.up_bank.specs.declared.kind.FrameKind.{FrameKind};

use std::marker::Model;

/// What one seat knows of its bank. No value of it is made.
pub struct View {
    /// 0, or one more than the number of the frame that it has.
    pub ghost has: { ℕ },
    /// Of that frame: 1 while its slot is empty, and 0 while the seat holds the slot.
    pub ghost empty: { ℕ },
    /// A frame's own seat, or one that was given up: it makes no step.
    pub ghost rests: { Bool },
    /// Its bank never had another seat, those of frames aside.
    pub ghost sole: { Bool },
    pub ghost kind: { FrameKind },
    /// Of a sole seat: for each frame 1 where it is at home, and otherwise 0.
    pub ghost home: { List ℕ },
    /// What its loads and fetches of the bitmap of home frames found, in order.
    pub ghost finds: { List Find },
    /// The returns of frames that it knows of, the newest first.
    pub ghost gives: { List Given },
    /// The returns that the two seats knew of that were last made one with this.
    pub ghost one: { List Given },
    pub ghost other: { List Given },
    /// A frame's own seat, of whose frame another seat has a token.
    pub ghost lent: { Bool },
    /// 0, or one more than the number of a frame that another seat has and lent.
    pub ghost token: { ℕ },
}

impl Model for View {
    ghost also_owns = { λ _. ftrue };
}
