use std::marker::Model;
use std::snapshot::Snapshot;
use up_bank::Bank;

/// The banks that an object was born with: one of ordinary frames, one of loaned ones. It is remembered, not held.
#[derive(Drop)]
pub struct Banks {
    pub(crate) ordinary: Snapshot<Bank>,
    pub(crate) loaned: Snapshot<Bank>,
}

impl Model for Banks {
    ghost use Rattle.std.specs.Prelude.{◌≡◌};
    ghost use Rattle.up_bank.specs.declared.kind.FrameKind.TheVariants.{Ordinary, Loaned};
    ghost use Rattle.up_object.specs.Parts.{BankPair};

    ghost Value = { BankPair };

    ghost view = { λ banks. record { ordinary = banks.ordinary.value; loaned = banks.loaned.value } };

    ghost invariant = { λ banks. (banks.ordinary.value.kind ≡ Ordinary) × (banks.loaned.value.kind ≡ Loaned) };
}
