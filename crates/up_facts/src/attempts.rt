ghost use Rattle.std.specs.Prelude.{◌≡◌, None, reverse};
ghost use Rattle.up_model.specs.Attempts as attempts;
ghost use Rattle.up_model.specs.Deeds as deeds;
ghost use Rattle.up_model.specs.Parked as parkings;
ghost use Rattle.up_facts.specs.Seen.{access_in};

use up_model::{Call, Entry, Reply};

/// The reply parks an access under this ticket.
pub fn blocks(reply: &Reply, ticket: u64) -> bool
    ensures { result ≡ attempts.blocks reply.now ticket }
{
    match reply {
        Reply::Blocked(given) => *given == ticket,
        _ => false,
    }
}

/// The reply gave a begin this number.
pub fn began_as(reply: &Reply, number: u64) -> bool
    ensures { result ≡ deeds.began_as reply.now number }
{
    match reply {
        Reply::Began(given) => *given == number,
        _ => false,
    }
}

fn retried(call: &Call) -> Option<u64>
    ensures { result ≡ parkings.retried call.now }
{
    match call {
        Call::Retry { ticket, brought: _ } => Some(*ticket),
        _ => None,
    }
}

/// The call itself, if it is a read or a write.
fn accessed<'a>(call: &'a Call) -> Option<&'a Call>
    ensures { access_in result ≡ attempts.attempt_of (λ ticket. None) call.now }
{
    match call {
        Call::Read { .. } | Call::Write { .. } => Some(call),
        _ => None,
    }
}

/// The read or write that waits under the ticket.
pub fn parked<'a>(before: &'a [Entry], ticket: u64) -> Option<&'a Call>
    ensures { access_in result ≡ attempts.parked (reverse before.now) ticket }
{
    let mut wanted = ticket;
    for place in (0..before.len()).rev() {
        let entry = &before[place];
        if blocks(&entry.reply, wanted) {
            match retried(&entry.call) {
                Some(earlier) => wanted = earlier,
                None => return accessed(&entry.call),
            }
        }
    }
    None
}

/// The read or write that a call attempts: for a retry the one under its ticket.
pub fn attempt<'a>(before: &'a [Entry], call: &'a Call) -> Option<&'a Call>
    ensures { access_in result ≡ attempts.attempt_of (attempts.parked (reverse before.now)) call.now }
{
    match retried(call) {
        Some(ticket) => parked(before, ticket),
        None => accessed(call),
    }
}
