ghost use Rattle.std.specs.Prelude.{◌≡◌, reverse};
ghost use Rattle.up_model.specs.Numbers as numbering;

use up_facts::began_as;
use up_model::{Entry, Reply};

/// The number of the next begin.
pub(crate) fn next_number(before: &[Entry]) -> u64
    ensures { result ≡ numbering.next_number (reverse before.now) }
{
    let mut count = 0;
    for place in 0..before.len() {
        if matches!(before[place].reply, Reply::Began(_)) {
            count += 1;
        }
    }
    count
}

/// Whether a begin has this number.
pub(crate) fn has_begun(before: &[Entry], number: u64) -> bool
    ensures { result ≡ numbering.has_begun (reverse before.now) number }
{
    let mut found = false;
    for place in 0..before.len() {
        found = began_as(&before[place].reply, number) || found;
    }
    found
}
