ghost use Rattle.std.specs.Prelude.{◌≡◌, ◌+◌, ◌≤◌, length, IfOk};
ghost use Rattle.up_bank.specs.Bytes.{zero_bytes, written};

use crate::Memory;
use std::alloc::Global;
use std::marker::Model;

/// The bytes of a frame.
#[derive(Drop)]
pub struct PageBytes {
    bytes: Box<[u8; 4096]>,
}

impl Model for PageBytes {
    ghost use Rattle.std.specs.Prelude.{ℕ, List, ◌≡◌, length};

    ghost Value = { List ℕ };

    ghost view = { λ block. block.bytes.value };

    ghost invariant = { λ block. length block.bytes.value ≡ 4096 };
}

impl PageBytes {
    pub fn new(alloc: Global) -> Result<PageBytes, Memory>
        ensures { IfOk result (λ block. block ≡ zero_bytes) }
    {
        let bytes = Box::new(alloc, [0; 4096])?;
        Ok(PageBytes { bytes })
    }

    pub fn as_slice(&self) -> &[u8]
        ensures same { result.now ≡ self.now }
        ensures whole { length result.now ≡ 4096 }
    {
        self.bytes.as_slice()
    }

    pub fn set(&mut self, at: usize, bytes: &[u8])
        requires { at + length bytes.now ≤ 4096 }
        ensures { self.new ≡ written self.old at bytes.now }
    {
        self.bytes[at..at + bytes.len()].copy_from_slice(bytes);
    }
}
