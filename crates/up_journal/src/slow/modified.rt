ghost use Rattle.std.specs.Prelude.{◌≡◌, reverse};
ghost use Rattle.up_model.specs.Modified as changes;
ghost use Rattle.up_facts.specs.Seen.{access_in};

use up_facts::{accepts, attempt, size};
use up_model::{Birth, Call, Entry, Reply};

fn is_write(access: Option<&Call>) -> bool
    ensures { result ≡ changes.is_write (access_in access.entry) }
{
    matches!(access, Some(Call::Write { .. }))
}

fn asks_other_size(call: &Call, pages: u32) -> bool
    ensures { result ≡ changes.asks_other_size call.now pages }
{
    match call {
        Call::Resize { pages: wanted } => *wanted != pages,
        _ => false,
    }
}

fn modifies(birth: &Birth, before: &[Entry], entry: &Entry) -> bool
    ensures { result ≡ changes.modifies birth.now (reverse before.now) entry.now }
{
    let call = &entry.call;
    let written = is_write(attempt(before, call)) && matches!(entry.reply, Reply::Done);
    let other = asks_other_size(call, size(birth, before)) || matches!(call, Call::Zero { .. });
    written || (other && accepts(&entry.reply))
}

fn is_reset(call: &Call) -> bool
    ensures { result ≡ changes.is_reset call.now }
{
    matches!(call, Call::Stats { reset: true })
}

/// Whether the object was changed since the last reset.
pub(crate) fn modified(birth: &Birth, before: &[Entry]) -> bool
    ensures { result ≡ changes.modified birth.now (reverse before.now) }
{
    let mut found = false;
    for place in 0..before.len() {
        let entry = &before[place];
        let changed = modifies(birth, &before[..place], entry);
        found = !is_reset(&entry.call) && (changed || found);
    }
    found
}
