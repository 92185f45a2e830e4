ghost use Rattle.std.specs.Prelude.{◌≡◌, ◌+◌, ◌-◌, ◌%◌, ◌^◌, ◌≤◌, min};
ghost use Rattle.std.specs.Iterator.{YieldsFirst, item_count};
ghost use Rattle.up_num.specs.Pieces.{pieces, PiecesJoin};

use crate::pages::Piece;
use std::marker::Model;

const PAGE_SIZE: u64 = 4096;

/// The pieces of an access that are still to come, in order. It takes no memory.
#[derive(Debug, Drop)]
pub struct Pieces {
    off: u64,
    len: u32,
}

impl Model for Pieces {
    ghost use Rattle.std.specs.Prelude.{◌+◌, ◌^◌, ◌≤◌, List};
    ghost use Rattle.up_num.specs.Pieces.{pieces};
    ghost use Rattle.up_num.specs.declared.pages.Piece.{Piece as PieceValue};

    ghost Value = { List PieceValue };

    ghost view = { λ left. pieces left.off left.len };

    ghost invariant = { λ left. left.off + left.len ≤ 2 ^ 44 };
}

impl Iterator for Pieces {
    type Item = Piece;

    ghost next_gives = { YieldsFirst (λ left. left) };

    ghost remaining = { item_count (λ left. left) };

    fn next(&mut self) -> Option<Piece> {
        if self.len == 0 {
            return None;
        }
        let off = self.off;
        let len = fitting(off, self.len);
        self.off = off + u64::from(len);
        self.len -= len;
        Some(Piece { off, len })
    }
}

/// How many of these bytes lie in the page of the first one.
fn fitting(off: u64, len: u32) -> u32
    ensures { result ≡ min len (4096 - off % 4096) }
{
    let left = (PAGE_SIZE - off % PAGE_SIZE) as u32;
    left.min(len)
}

/// Cuts an access where its pages end.
pub fn pieces_of(off: u64, len: u32) -> Pieces
    requires { off + len ≤ 2 ^ 44 }
    ensures { result ≡ pieces off len }
{
    Pieces { off, len }
}

/// The pieces of an access are consecutive, not empty, each within one page, and together the access.
pub fn pieces_join()
    ensures { PiecesJoin }
{}
