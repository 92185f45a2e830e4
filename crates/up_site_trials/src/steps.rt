//! Which call or step an entry tells of.
ghost use Rattle.std.specs.Prelude.{◌≡◌, true};
ghost use Rattle.up_site.specs.Hosted.{may_act};

use up_claims::SiteStep;
use up_model::{Call, Told};
use up_num::{AskKind, Code, PageNo};

/// The worker's step that makes such an entry.
pub(crate) fn step_of(call: &Call) -> Option<SiteStep> {
    match call {
        Call::Packet | Call::Dirty { .. } | Call::Begin { .. } => {
            Some(SiteStep::Pick { write_first: false })
        }
        Call::Fail {
            range,
            code: Code::NoSpace,
        } => Some(SiteStep::Deny {
            kind: AskKind::Read,
            page: PageNo(range.first),
        }),
        Call::Supply { .. } | Call::Fail { .. } => Some(SiteStep::Deliver),
        Call::End { .. } => Some(SiteStep::End),
        Call::Tell(told) => step_told(told),
        _ => None,
    }
}

fn step_told(told: &Told) -> Option<SiteStep> {
    match told {
        Told::Fetched { .. } => Some(SiteStep::Pick { write_first: false }),
        Told::Copied(_) => Some(SiteStep::Copy),
        Told::Stored { .. } => Some(SiteStep::Store),
        Told::Flushed { .. } => Some(SiteStep::Flush),
        Told::Busy { .. } => None,
    }
}

/// How many pages a resize is to give that makes such an entry.
pub(crate) fn pages_of(call: &Call) -> Option<u32> {
    match call {
        Call::Resize { pages } => Some(*pages),
        Call::Tell(Told::Busy { pages, .. }) => Some(*pages),
        _ => None,
    }
}

/// Whether users and others may make the call themselves.
pub(crate) fn may_act(call: &Call) -> bool
    ensures { result ≡ may_act true call.now }
{
    match call {
        Call::Supply { .. } | Call::Fail { .. } | Call::Dirty { .. } => false,
        Call::Begin { .. } | Call::End { .. } | Call::Packet => false,
        Call::Resize { .. } | Call::Leave { .. } | Call::Tell(_) => false,
        _ => true,
    }
}
