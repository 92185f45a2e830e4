//! Copies of calls, and the frames that a call says it brought.
ghost use Rattle.std.specs.Prelude.{◌≡◌, IfOk, false};
ghost use Rattle.up_model.specs.Bringing as calls;

use crate::entry::{Brought, Call};
use std::alloc::Global;
use up_num::Memory;

impl Call {
    /// What the call says that it brought; nothing where it takes no frames.
    pub fn brought(&self) -> Brought
        ensures { result ≡ calls.brought_by self.now }
    {
        match self {
            Call::Read { brought, .. }
            | Call::Write { brought, .. }
            | Call::Retry { brought, .. }
            | Call::Supply { brought, .. }
            | Call::Dirty { brought, .. }
            | Call::Pin { brought, .. }
            | Call::Borrow { brought, .. }
            | Call::Vacate { brought } => *brought,
            _ => Brought::Nothing,
        }
    }

    /// A copy of the call. It takes memory for bytes alone.
    pub fn copy(&self, alloc: Global) -> Result<Call, Memory>
        ensures { IfOk result (λ made. made ≡ self.now) }
    {
        match self {
            Call::Write {
                off,
                bytes,
                last,
                brought,
            } => Ok(Call::Write {
                off: *off,
                bytes: bytes.copy(alloc)?,
                last: *last,
                brought: *brought,
            }),
            Call::Supply {
                range,
                bytes,
                brought,
            } => Ok(Call::Supply {
                range: *range,
                bytes: bytes.copy(alloc)?,
                brought: *brought,
            }),
            other => Ok(copy_small(other)),
        }
    }

    /// A copy of the call, with this brought to it where it takes frames.
    pub fn copy_bringing(&self, alloc: Global, brought: Brought) -> Result<Call, Memory>
        ensures { IfOk result (λ made. made ≡ calls.bringing brought self.now) }
    {
        Ok(bringing(self.copy(alloc)?, brought))
    }
}

/// The call, with this brought to it where it takes frames.
fn bringing(call: Call, brought: Brought) -> Call
    ensures { result ≡ calls.bringing brought call }
{
    match call {
        Call::Read { piece, last, .. } => Call::Read {
            piece,
            last,
            brought,
        },
        Call::Write {
            off,
            bytes,
            last,
            ..
        } => Call::Write {
            off,
            bytes,
            last,
            brought,
        },
        Call::Retry { ticket, .. } => Call::Retry { ticket, brought },
        Call::Supply { range, bytes, .. } => Call::Supply {
            range,
            bytes,
            brought,
        },
        Call::Dirty { range, .. } => Call::Dirty { range, brought },
        Call::Pin { range, .. } => Call::Pin { range, brought },
        Call::Borrow { page, .. } => Call::Borrow { page, brought },
        Call::Vacate { .. } => Call::Vacate { brought },
        other => other,
    }
}

/// A copy of a call without bytes.
fn copy_small(call: &Call) -> Call
    requires { calls.has_bytes call.now ≡ false }
    ensures { result ≡ call.now }
{
    match call {
        Call::Read {
            piece,
            last,
            brought,
        } => Call::Read {
            piece: *piece,
            last: *last,
            brought: *brought,
        },
        Call::Retry { ticket, brought } => Call::Retry {
            ticket: *ticket,
            brought: *brought,
        },
        Call::Dirty { range, brought } => Call::Dirty {
            range: *range,
            brought: *brought,
        },
        Call::Pin { range, brought } => Call::Pin {
            range: *range,
            brought: *brought,
        },
        Call::Borrow { page, brought } => Call::Borrow {
            page: *page,
            brought: *brought,
        },
        Call::Vacate { brought } => Call::Vacate { brought: *brought },
        other => copy_least(other),
    }
}

/// A copy of a call that takes no frames.
fn copy_least(call: &Call) -> Call
    requires { calls.takes_frames call.now ≡ false }
    ensures { result ≡ call.now }
{
    match call {
        Call::Fail { range, code } => Call::Fail {
            range: *range,
            code: *code,
        },
        Call::Begin { range, zero } => Call::Begin {
            range: *range,
            zero: *zero,
        },
        Call::End { range, of } => Call::End {
            range: *range,
            of: *of,
        },
        Call::Query { range, room } => Call::Query {
            range: *range,
            room: *room,
        },
        Call::Stats { reset } => Call::Stats { reset: *reset },
        Call::Hint { range, kind } => Call::Hint {
            range: *range,
            kind: *kind,
        },
        Call::Unpin { range } => Call::Unpin { range: *range },
        Call::Evict { limit, max } => Call::Evict {
            limit: *limit,
            max: *max,
        },
        Call::Resize { pages } => Call::Resize { pages: *pages },
        Call::Zero { range } => Call::Zero { range: *range },
        Call::Leave { role } => Call::Leave { role: *role },
        Call::Tell(told) => Call::Tell(*told),
        Call::Packet => Call::Packet,
        _ => Call::Detach,
    }
}
