ghost use Rattle.std.specs.Prelude.{◌≡◌, ◌+◌, ◌<◌, ◌^◌, length, cond, is_ok, is_err, IfOk};
ghost use Rattle.up_outside.specs.Cause.{HasCause};
ghost use Rattle.up_outside.specs.InMemory.{counted};

use crate::{Disk, Failed};
use std::fs::{File, Files, OpenOptions};
use std::marker::Model;
use std::os::unix::fs::FileExt;

/// A file as a disk. Bytes past its end read as zeros. It tells no content.
#[derive(Debug, Drop)]
pub struct FileDisk {
    file: File,
    count: u32,
    faults: u64,
}

impl Model for FileDisk {
    ghost use Rattle.up_disk.specs.Filed.{Filed};

    ghost Value = { Filed };

    ghost view = { λ disk. record { count = disk.count; faults = disk.faults } };
}

impl FileDisk {
    /// The file of this name as a disk of so many blocks. A missing file is made empty.
    pub fn open<R: Files<File = File>>(rt: &R, name: &str, count: u32) -> Result<FileDisk, Failed>
        ensures { IfOk result (λ disk. disk ≡ record { count = count; faults = 0 }) }
    {
        let opened = OpenOptions::new()
            .read(true)
            .write(true)
            .create(true)
            .open(rt, name);
        match opened {
            Ok(file) => Ok(FileDisk {
                file,
                count,
                faults: 0,
            }),
            Err(_) => Err(Failed),
        }
    }

    // The answer of a call; a failed one is counted.
    fn answer(&mut self, good: bool) -> Result<(), Failed>
        ensures planned { is_ok result ≡ good }
        ensures count { self.new.count ≡ self.old.count }
        ensures faults { self.new.faults ≡ cond (is_err result) (counted self.old.faults) self.old.faults }
        ensures cause { HasCause self.old.faults self.new.faults result }
    {
        if good {
            return Ok(());
        }
        self.faults = self.faults.saturating_add(1);
        Err(Failed)
    }
}

impl Disk for FileDisk {
    ghost use Rattle.std.specs.Prelude.{◌≡◌, false, [], length};
    ghost use Rattle.std.proofs.Common.{true≢false, sym};

    ghost tells = { false };

    ghost lasts = { false };

    ghost count = { λ disk. disk.count };

    ghost blocks = { λ _. [] };

    ghost faults = { λ disk. disk.faults };

    ghost calls = { λ _. 0 };

    ghost time = { λ _. 0 };

    ghost leaves = { λ disk _ image. length image ≡ disk.count };

    ghost whole = { λ _ told. absurd (true≢false (sym told)) };

    ghost told = { λ lasts. lasts };

    ghost earlier = { λ _ _ _ _ _ _ left. left };

    ghost now = { λ _ lasts. absurd (true≢false (sym lasts)) };

    ghost sized = { λ _ _ _ _ left. left };

    fn read_block(&mut self, number: u32, out: &mut [u8]) -> Result<(), Failed>
        requires number { number < self.old.count }
        requires whole { length out.old ≡ 4096 }
        ensures count { self.new.count ≡ self.old.count }
        ensures faults { self.new.faults ≡ cond (is_err result) (counted self.old.faults) self.old.faults }
        ensures cause { HasCause self.old.faults self.new.faults result }
    {
        let good = read_at(&self.file, u64::from(number) * 4096, out);
        self.answer(good)
    }

    fn write_block(&mut self, number: u32, bytes: &[u8]) -> Result<(), Failed>
        requires number { number < self.old.count }
        requires whole { length bytes.now ≡ 4096 }
        ensures count { self.new.count ≡ self.old.count }
        ensures faults { self.new.faults ≡ cond (is_err result) (counted self.old.faults) self.old.faults }
        ensures cause { HasCause self.old.faults self.new.faults result }
    {
        let written = self.file.write_all_at(bytes, u64::from(number) * 4096);
        self.answer(written.is_ok())
    }

    fn sync(&mut self) -> Result<(), Failed>
        ensures count { self.new.count ≡ self.old.count }
        ensures faults { self.new.faults ≡ cond (is_err result) (counted self.old.faults) self.old.faults }
        ensures cause { HasCause self.old.faults self.new.faults result }
    {
        let synced = self.file.sync_all();
        self.answer(synced.is_ok())
    }
}

// Fills the buffer with the file's bytes from a place on, with zeros past its end, and says whether that was done.
fn read_at(file: &File, from: u64, out: &mut [u8]) -> bool
    requires { from + length out.old < 2 ^ 63 }
{
    let mut filled = 0;
    while filled < out.len() {
        match file.read_at(&mut out[filled..], from + filled as u64) {
            Ok(0) => {
                out[filled..].fill(0);
                return true;
            }
            Ok(count) => filled += count,
            Err(_) => return false,
        }
    }
    true
}
