ghost use Rattle.std.specs.Prelude.{◌≡◌, ◌+◌, ◌-◌, ◌^◌, ◌≤◌, true, [], ◌∷◌, length, take, drop, map, slice_get, IfOk, IfSome};
ghost use Rattle.std.specs.Option.{option_map};
ghost use Rattle.up_num.specs.Pieces.{pieces};
ghost use Rattle.up_worker.specs.Calls.{fits_line, calls_in, bringing_aim, look_of, look_of_call, last_page, read_of, write_of, vacate_of, leave_of, bare};
ghost use Rattle.up_script.specs.Verbs.{role_of};
ghost use Rattle.up_model.specs.declared.entry.Brought.{Brought};

use crate::course::{Aim, CallLook, plain_look};
use std::alloc::Global;
use up_model::{Brought, Call, Role};
use up_num::{Bytes, Memory, PageNo, Piece};
use up_script::{Action, Kind, Numbers};

const PAGE_SIZE: u64 = 4096;

// The call at this place of those of a line, with what is brought to it.
pub(crate) fn line_call_at(
    alloc: Global,
    objects: &Numbers,
    action: &Action,
    place: u64,
    brought: Brought,
) -> Result<Option<Aim>, Memory>
    requires { fits_line action.now ≡ true }
    ensures { IfOk result (λ found. found ≡ option_map (bringing_aim brought) (slice_get (calls_in objects.now action.now) place)) }
{
    match action {
        Action::Read { object, off, len } => Ok(read_at(*object, *off, *len, place, brought)),
        Action::Write { object, off, bytes } => write_at(
            alloc, *object, *off, bytes, place, brought,
        ),
        Action::Act { object, call } => act_at(alloc, *object, call, place, brought),
        Action::Recall => Ok(vacate_at(objects, place, brought)),
        _ => Ok(None),
    }
}

// What is to be known of it.
pub(crate) fn line_look_at(objects: &Numbers, action: &Action, place: u64) -> Option<CallLook>
    requires { fits_line action.now ≡ true }
    ensures { result ≡ option_map look_of (slice_get (calls_in objects.now action.now) place) }
{
    match action {
        Action::Read { object, off, len } => match piece_at(*off, u64::from(*len), place) {
            Some(_) => Some(plain_look(*object)),
            None => None,
        },
        Action::Write { object, off, bytes } => match piece_at(*off, bytes.len() as u64, place) {
            Some(_) => Some(plain_look(*object)),
            None => None,
        },
        Action::Act { object, call } => {
            if place == 0 {
                Some(look_of_call(*object, call))
            } else {
                None
            }
        }
        Action::Recall => match number_at(objects, place) {
            Some(object) => Some(plain_look(object)),
            None => None,
        },
        _ => None,
    }
}

fn look_of_call(object: u32, call: &Call) -> CallLook
    ensures { result ≡ look_of_call object call.now }
{
    match call {
        Call::Supply { range, .. } => CallLook {
            object,
            before: range.count,
            borrows: false,
        },
        Call::Borrow { .. } => CallLook {
            object,
            before: 0,
            borrows: true,
        },
        _ => plain_look(object),
    }
}

// The one call of a line, with what is brought to it.
fn act_at(
    alloc: Global,
    object: u32,
    call: &Call,
    place: u64,
    brought: Brought,
) -> Result<Option<Aim>, Memory>
    ensures { IfOk result (λ found. found ≡ option_map (bringing_aim brought) (slice_get (record { object = object; call = bare call.now } ∷ []) place)) }
{
    if place > 0 {
        return Ok(None);
    }
    let call = call.copy_bringing(alloc, brought)?;
    Ok(Some(Aim { object, call }))
}

// The read at this place of an access.
fn read_at(object: u32, off: u64, len: u32, place: u64, brought: Brought) -> Option<Aim>
    requires { off + len ≤ 2 ^ 44 }
    ensures { result ≡ option_map (bringing_aim brought) (slice_get (map (read_of object off len) (pieces off len)) place) }
{
    let len = u64::from(len);
    match piece_at(off, len, place) {
        Some(piece) => {
            let last = last_page(off, len);
            let call = Call::Read {
                piece,
                last,
                brought,
            };
            Some(Aim { object, call })
        }
        None => None,
    }
}

// The write at this place of an access.
fn write_at(
    alloc: Global,
    object: u32,
    off: u64,
    bytes: &Bytes,
    place: u64,
    brought: Brought,
) -> Result<Option<Aim>, Memory>
    requires { off + length bytes.now ≤ 2 ^ 44 }
    ensures { IfOk result (λ found. found ≡ option_map (bringing_aim brought) (slice_get (map (write_of object off bytes.now) (pieces off (length bytes.now))) place)) }
{
    let len = bytes.len() as u64;
    match piece_at(off, len, place) {
        Some(piece) => {
            let bytes = bytes_of(alloc, off, bytes, &piece)?;
            let last = last_page(off, len);
            let call = Call::Write {
                off: piece.off,
                bytes,
                last,
                brought,
            };
            Ok(Some(Aim { object, call }))
        }
        None => Ok(None),
    }
}

// The bytes of an access from `off` on that lie in a piece.
fn bytes_of(alloc: Global, off: u64, bytes: &Bytes, piece: &Piece) -> Result<Bytes, Memory>
    requires from { off ≤ piece.now.off }
    requires to { piece.now.off + piece.now.len ≤ off + length bytes.now }
    ensures { IfOk result (λ part. part ≡ take piece.now.len (drop (piece.now.off - off) bytes.now)) }
{
    let from = (piece.off - off) as usize;
    let rest = &bytes.as_slice()[from..];
    Bytes::from_slice(alloc, &rest[..piece.len as usize])
}

// The page in which an access ends.
fn last_page(off: u64, len: u64) -> PageNo
    requires { off + len ≤ 2 ^ 44 }
    ensures { result ≡ last_page off len }
{
    let end = off + len;
    PageNo((end.saturating_sub(1) / PAGE_SIZE) as u32)
}

// The piece at this place of an access.
fn piece_at(off: u64, len: u64, place: u64) -> Option<Piece>
    requires { off + len ≤ 2 ^ 44 }
    ensures piece { result ≡ slice_get (pieces off len) place }
    ensures within { IfSome result (λ piece. (off ≤ piece.off) × (piece.off + piece.len ≤ off + len)) }
{
    if len == 0 {
        return None;
    }
    let end = off + len;
    let first = off / PAGE_SIZE;
    let count = (end - 1) / PAGE_SIZE + 1 - first;
    if place >= count {
        return None;
    }
    let page = first + place;
    let from = off.max(PAGE_SIZE * page);
    let to = end.min(PAGE_SIZE * (page + 1));
    Some(Piece {
        off: from,
        len: (to - from) as u32,
    })
}

// The number at this place of a list.
pub(crate) fn number_at(numbers: &Numbers, place: u64) -> Option<u32>
    ensures { result ≡ slice_get numbers.now place }
{
    if place < numbers.len() as u64 {
        Some(*numbers.at(place as usize))
    } else {
        None
    }
}

// The vacate at this place of a recall.
fn vacate_at(objects: &Numbers, place: u64, brought: Brought) -> Option<Aim>
    ensures { result ≡ option_map (bringing_aim brought) (slice_get (map vacate_of objects.now) place) }
{
    match number_at(objects, place) {
        Some(object) => Some(Aim {
            object,
            call: Call::Vacate { brought },
        }),
        None => None,
    }
}

// The leave at this place.
pub(crate) fn leave_at(kind: Kind, left: &Numbers, place: u64) -> Option<Aim>
    ensures { (b : Brought) → result ≡ option_map (bringing_aim b) (slice_get (map (leave_of kind) left.now) place) }
{
    match number_at(left, place) {
        Some(object) => Some(Aim {
            object,
            call: Call::Leave {
                role: role_of(kind),
            },
        }),
        None => None,
    }
}

fn role_of(kind: Kind) -> Role
    ensures { result ≡ role_of kind }
{
    match kind {
        Kind::User => Role::User,
        _ => Role::Pager,
    }
}
