//! What a call brings when it is made again.
ghost use Rattle.std.specs.Prelude.{◌≡◌, ℕ, IsTrue};
ghost use Rattle.up_model.specs.Reply.{proper};
ghost use Rattle.up_object.specs.OneCall.{brought_count};
ghost use Rattle.up_check.specs.Replaying as replaying;

use up_core::needs;
use up_model::{Brought, Call};
use up_object::Object;

/// What the call is to bring for the same reply: as many frames as it needs, where it brought as many, else its own number.
/// A supply brings what it brought.
pub(crate) fn brought_again(object: &Object, call: &Call) -> Brought
    requires proper { (who : ℕ) × IsTrue (proper object.now.birth object.now.journal who call.now) }
    ensures { result ≡ replaying.brought_again object.now.birth object.now.journal call.now }
{
    let brought = call.brought();
    if is_supply(call) {
        return brought;
    }
    at_most(brought, needs(object, call))
}

fn is_supply(call: &Call) -> bool
    ensures { result ≡ replaying.is_supply call.now }
{
    matches!(call, Call::Supply { .. })
}

/// So many frames, where there are as many.
fn at_most(brought: Brought, count: u32) -> Brought
    ensures { result ≡ replaying.at_most count brought }
{
    match brought {
        Brought::Frames(given) if count <= given => some_frames(count),
        other => other,
    }
}

fn some_frames(count: u32) -> Brought
    ensures { result ≡ brought_count count }
{
    if count == 0 {
        Brought::Nothing
    } else {
        Brought::Frames(count)
    }
}
