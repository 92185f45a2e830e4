ghost use Rattle.std.specs.Prelude.{◌≡◌, ◌≤◌, length, reverse};
ghost use Rattle.up_model.specs.Pins as pinned;

use crate::deeds::{
    borrows, cuts, drops, hints_always, hints_cold, lets_dirty, moves, pins_one, unpins_one,
    writes, zeroes,
};
use up_model::{Birth, Entry};

/// How many pins the page has.
pub fn pins(before: &[Entry], page: u64) -> u64
    ensures value { result ≡ pinned.pins (reverse before.now) page }
    ensures within { result ≤ length before.now }
{
    let mut count = 0u64;
    for place in 0..before.len() {
        if pins_one(&before[place], page) {
            count += 1;
        } else if unpins_one(&before[place], page) {
            count = count.saturating_sub(1);
        }
    }
    count
}

/// Whether the page is protected.
pub fn always(birth: &Birth, before: &[Entry], page: u64) -> bool
    ensures { result ≡ pinned.always birth.now (reverse before.now) page }
{
    let mut found = false;
    for place in 0..before.len() {
        let entry = &before[place];
        let ended = hints_cold(entry, page) || cuts(birth, &before[..place], entry, page);
        found = hints_always(entry, page) || (!ended && found);
    }
    found
}

fn ends_loan(birth: &Birth, before: &[Entry], entry: &Entry, page: u64) -> bool
    ensures { result ≡ pinned.ends_loan birth.now (reverse before.now) entry.now page }
{
    writes(before, entry, page)
        || lets_dirty(entry, page)
        || pins_one(entry, page)
        || zeroes(entry, page)
        || moves(entry, page)
        || drops(birth, before, entry, page)
}

/// Whether the frame of the page is a loaned one.
pub fn loaned(birth: &Birth, before: &[Entry], page: u64) -> bool
    ensures { result ≡ pinned.loaned birth.now (reverse before.now) page }
{
    let mut found = false;
    for place in 0..before.len() {
        let entry = &before[place];
        let ended = ends_loan(birth, &before[..place], entry, page);
        found = borrows(entry, page) || (!ended && found);
    }
    found
}
