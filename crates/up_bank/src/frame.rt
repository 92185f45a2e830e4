ghost use Rattle.std.specs.Prelude.{◌≡◌, ◌+◌, ◌≤◌, length};
ghost use Rattle.up_bank.specs.Bytes.{written};

use crate::kind::FrameKind;
use crate::page_bytes::PageBytes;
use crate::rule::Place;
use std::marker::Model;

/// A frame that is out of its bank: 4,096 bytes with one owner. It has to be given back.
pub struct Frame {
    pub(crate) place: Place,
    pub(crate) number: u32,
    pub(crate) kind: FrameKind,
    pub(crate) block: PageBytes,
}

impl Model for Frame {
    ghost use Rattle.std.specs.Prelude.{◌≡◌, ◌<◌, [], suc};
    ghost use Rattle.up_bank.specs.Scan.{Rests};
    ghost use Rattle.up_bank.specs.Standing.{Held};

    ghost Value = { Held };

    ghost view = { λ frame. record {
      bank = record { table = frame.place.table_id; kind = frame.kind };
      number = frame.number;
      bytes = frame.block;
    } };

    ghost invariant = { λ frame. (frame.place.me.0.has ≡ suc frame.number) × (frame.place.me.0.empty ≡ 1) × (frame.place.me.1 ≡ []) × (frame.number < frame.place.table_id.slots) × Rests frame.place.me.0 };
}

impl Frame {
    /// Its number in its bank, counted from 0.
    pub fn number(&self) -> u32
        ensures { result ≡ self.now.number }
    {
        self.number
    }

    pub fn kind(&self) -> FrameKind
        ensures { result ≡ self.now.bank.kind }
    {
        self.kind
    }

    /// All its bytes.
    pub fn bytes(&self) -> &[u8]
        ensures same { result.now ≡ self.now.bytes }
        ensures whole { length result.now ≡ 4096 }
    {
        self.block.as_slice()
    }

    /// Writes bytes from a place on.
    pub fn set(&mut self, at: u32, bytes: &[u8])
        requires { at + length bytes.now ≤ 4096 }
        ensures { self.new ≡ record self.old { bytes = written self.old.bytes at bytes.now } }
    {
        self.block.set(at as usize, bytes);
    }
}
