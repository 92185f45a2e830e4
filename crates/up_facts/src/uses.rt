ghost use Rattle.std.specs.Prelude.{◌≡◌, ◌<◌, ◌^◌, reverse};
ghost use Rattle.up_model.specs.Use as used;

use crate::deeds::{hints_cold, pins_one, reads, writes};
use crate::facts::takes;
use up_model::{Birth, Entry};

fn uses(birth: &Birth, before: &[Entry], entry: &Entry, page: u64) -> bool
    requires { page < 2 ^ 52 }
    ensures { result ≡ used.uses birth.now (reverse before.now) entry.now page }
{
    reads(before, entry, page)
        || (writes(before, entry, page)
            || (takes(birth, before, entry, page) || pins_one(entry, page)))
}

/// The position of the last entry that uses the page.
pub fn last_use(birth: &Birth, before: &[Entry], page: u64) -> Option<u64>
    requires { page < 2 ^ 52 }
    ensures { result ≡ used.last_use birth.now (reverse before.now) page }
{
    let mut last = None;
    for place in 0..before.len() {
        if uses(birth, &before[..place], &before[place], page) {
            last = Some(place as u64);
        }
    }
    last
}

/// The position of the last cold hint over the page, if no use of the page stands after it.
pub fn cold_since(birth: &Birth, before: &[Entry], page: u64) -> Option<u64>
    requires { page < 2 ^ 52 }
    ensures { result ≡ used.cold_since birth.now (reverse before.now) page }
{
    let mut since = None;
    for place in 0..before.len() {
        let entry = &before[place];
        if hints_cold(entry, page) {
            since = Some(place as u64);
        } else if uses(birth, &before[..place], entry, page) {
            since = None;
        }
    }
    since
}

/// The greatest epoch of all entries, 0 without any.
pub fn newest_epoch(before: &[Entry]) -> u64
    ensures { result ≡ used.newest_epoch (reverse before.now) }
{
    let mut newest = 0u64;
    for place in 0..before.len() {
        newest = before[place].epoch.max(newest);
    }
    newest
}

/// The greatest epoch of the entries up to the last use of the page.
pub(crate) fn generation(birth: &Birth, before: &[Entry], page: u64) -> u64
    requires { page < 2 ^ 52 }
    ensures { result ≡ used.generation birth.now (reverse before.now) page }
{
    let mut newest = 0u64;
    let mut generation = 0u64;
    for place in 0..before.len() {
        let entry = &before[place];
        newest = entry.epoch.max(newest);
        if uses(birth, &before[..place], entry, page) {
            generation = newest;
        }
    }
    generation
}

/// How old the page is, where the newest epoch is given: at most 7.
pub fn age_class(birth: &Birth, before: &[Entry], newest: u64, page: u64) -> u64
    requires { page < 2 ^ 52 }
    ensures { result ≡ used.age_class birth.now (reverse before.now) newest page }
{
    let age = newest.saturating_sub(generation(birth, before, page));
    let oldest = 7u64;
    oldest.min(age)
}
