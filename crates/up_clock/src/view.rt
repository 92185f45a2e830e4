ghost use Rattle.std.specs.Prelude.{ℕ, Bool, List};
ghost use Rattle.std.specs.Borrow.{ftrue};

use std::marker::Model;

/// What one seat knows of its clock. No value of it is made.
pub struct View {
    /// The greatest number that it was answered.
    pub ghost told: { ℕ },
    /// How often it aged the clock.
    pub ghost ages: { ℕ },
    /// The clock never had another seat.
    pub ghost sole: { Bool },
    /// What its loads and fetches of the clock's word found, in order.
    pub ghost finds: { List ℕ },
}

impl Model for View {
    ghost also_owns = { λ _. ftrue };
}
