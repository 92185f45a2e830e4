ghost use Rattle.std.specs.Prelude.{◌≡◌, reverse};
ghost use Rattle.up_model.specs.Attempts as attempts;
ghost use Rattle.up_model.specs.Size as sizes;

use up_model::{Birth, Call, Entry, Reply};

/// The reply says that the call did what it is for.
pub fn accepts(reply: &Reply) -> bool
    ensures { result ≡ attempts.accepts reply.now }
{
    !matches!(
        reply,
        Reply::Refused(_) | Reply::Needs(_) | Reply::Blocked(_) | Reply::Waiting
    )
}

fn resized(entry: &Entry, pages: u32) -> u32
    ensures { result ≡ sizes.resized entry.now.call entry.now.reply pages }
{
    match &entry.call {
        Call::Resize { pages: wanted } if accepts(&entry.reply) => *wanted,
        _ => pages,
    }
}

/// How many pages the object has.
pub fn size(birth: &Birth, before: &[Entry]) -> u32
    ensures { result ≡ sizes.size birth.now (reverse before.now) }
{
    let mut pages = birth.pages;
    for place in 0..before.len() {
        pages = resized(&before[place], pages);
    }
    pages
}
