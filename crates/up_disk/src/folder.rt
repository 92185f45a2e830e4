ghost use Rattle.std.specs.Prelude.{◌≡◌, ◌<◌, None, IfOk};
ghost use Rattle.up_disk.specs.Foldered.{foldered};

use crate::noted::{Noted, Place};
use crate::{Failed, FileDisk, Shelf};
use std::alloc::Global;
use std::fs::{File, Files};
use std::marker::Model;
use std::str;
use up_num::{Bytes, Memory};

/// The files of the current folder as disks. It tells no content.
#[derive(Drop)]
pub struct FolderShelf<'a, R: Files<File = File>> {
    files: &'a R,
    brought: Vec<Noted<FileDisk>>,
    back: Vec<Place<FileDisk>>,
    faults: u64,
}

impl<'a, R: Files<File = File>> Model for FolderShelf<'a, R> {
    ghost use Rattle.up_disk.specs.Foldered.{Foldered};

    ghost Value = { Foldered };

    ghost view = { λ shelf. record { brought = shelf.brought.items; back = shelf.back.items; faults = shelf.faults } };
}

impl<'a, R: Files<File = File>> FolderShelf<'a, R> {
    /// The shelf of the current folder.
    pub fn new(alloc: Global, files: &'a R) -> Self
        ensures { result ≡ foldered }
    {
        let brought = Vec::new(alloc);
        let back = Vec::new(alloc);
        FolderShelf {
            files,
            brought,
            back,
            faults: 0,
        }
    }
}

impl<'a, R: Files<File = File>> Shelf for FolderShelf<'a, R> {
    type D = FileDisk;

    ghost holds = { λ _ _. None };

    ghost brought = { λ shelf. shelf.brought };

    ghost back = { λ shelf. shelf.back };

    ghost faults = { λ shelf. shelf.faults };

    fn bring(
        &mut self,
        alloc: Global,
        name: &[u8],
        blocks: u32,
    ) -> Result<Result<FileDisk, Failed>, Memory> {
        self.brought.reserve(1)?;
        self.back.reserve(1)?;
        let called = Bytes::from_slice(alloc, name)?;
        let opened = open(self.files, name, blocks);
        match opened {
            Ok(disk) => {
                self.brought.push_reserved(Noted::of(called, &disk));
                self.back.push_reserved(Place::empty());
                Ok(Ok(disk))
            }
            Err(failed) => {
                self.faults = self.faults.saturating_add(1);
                Ok(Err(failed))
            }
        }
    }

    fn put_back(&mut self, place: u32, disk: FileDisk) {
        self.back[place as usize] = Place::of(&disk);
    }
}

// The file of this name as a disk, if it is text and the file can be opened.
fn open<R: Files<File = File>>(files: &R, name: &[u8], blocks: u32) -> Result<FileDisk, Failed>
    ensures { IfOk result (λ disk. disk ≡ record { count = blocks; faults = 0 }) }
{
    match str::from_utf8(name) {
        Ok(name) => FileDisk::open(files, name, blocks),
        Err(_) => Err(Failed),
    }
}
