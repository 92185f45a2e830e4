//! Whom a call wakes, by its reply.
use up_claims::SiteReply;
use up_model::Reply;
use up_num::Woken;
use up_object::{Object, Step};
use up_site::SiteStepped;

// Whom to wake once the turn was left: these actors, the workers, whoever is in a sync, or everybody.
#[derive(Clone, Copy, Debug)]
pub(crate) struct Wakes {
    pub(crate) these: u64,
    pub(crate) workers: bool,
    pub(crate) syncs: bool,
    pub(crate) all: bool,
}

// The bit of an actor in a word of bits.
pub(crate) fn bit_of(who: u32) -> u64 {
    if who < 64 { 1 << who } else { 0 }
}

// A word with a bit for each of these actors.
pub(crate) fn bits_of(actors: &[u32]) -> u64 {
    let mut bits = 0;
    for &who in actors {
        bits |= bit_of(who);
    }
    bits
}

// Who holds the tickets that were woken. They are unspent, so each has a holder.
fn owners(object: &Object, woke: &Woken) -> u64 {
    let asks = object.asks();
    let mut bits = 0;
    for &ticket in woke.as_slice() {
        if let Some(who) = asks.holder(ticket) {
            bits |= bit_of(who);
        }
    }
    bits
}

impl Wakes {
    fn nobody() -> Wakes {
        Wakes {
            these: 0,
            workers: false,
            syncs: false,
            all: false,
        }
    }

    fn of_reply(object: &Object, reply: &Reply) -> Wakes {
        let mut wakes = Wakes::nobody();
        match reply {
            Reply::Took { pages: _, woke } => wakes.these = owners(object, woke),
            Reply::Woke(woke) => {
                wakes.these = owners(object, woke);
                wakes.workers = true;
                wakes.all = object.detached();
            }
            Reply::Blocked(_) | Reply::Done => wakes.workers = true,
            Reply::Left(_) => wakes.all = object.detached(),
            _ => {}
        }
        wakes
    }

    // After a call.
    pub(crate) fn after(object: &Object, step: &Step) -> Wakes {
        match step {
            Ok(stepped) => Wakes::of_reply(object, &stepped.reply),
            Err(_) => Wakes::nobody(),
        }
    }

    fn of_answer(object: &Object, answer: &SiteReply, woke: &Woken) -> Wakes {
        let mut wakes = Wakes::nobody();
        wakes.these = owners(object, woke);
        match answer {
            SiteReply::Resized(reply) => return Wakes::of_reply(object, reply),
            SiteReply::Delivered
            | SiteReply::NoFrame(_)
            | SiteReply::StoreFailed { detached: _ }
            | SiteReply::Ended => {
                wakes.workers = true;
                wakes.syncs = true;
            }
            SiteReply::Granted => wakes.workers = true,
            _ => {}
        }
        wakes
    }

    // After a step of the sample pager, or a resize.
    pub(crate) fn after_site(object: &Object, stepped: &SiteStepped) -> Wakes {
        match stepped {
            Ok((answer, woke, _)) => Wakes::of_answer(object, answer, woke),
            Err(_) => Wakes::nobody(),
        }
    }
}
