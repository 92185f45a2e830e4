//! Disks of blocks of 4,096 bytes: what their calls do, what a stop leaves on them, and three of them; and shelves, where
//! disks come from.
//! Used by itself in `up_disk_trials`.
#![tactic(auto)]

mod block;
mod disk;
mod file;
mod folder;
pub mod laws;
mod left;
mod mem;
mod mem_shelf;
mod noted;
mod plain;
mod shelf;
mod splitting;

pub use block::{Block, Blocks};
pub use disk::Disk;
pub use file::FileDisk;
pub use folder::FolderShelf;
pub use mem::{DiskCall, MemDisk};
pub use mem_shelf::MemShelf;
pub use plain::PlainDisk;
pub use shelf::Shelf;
pub use up_outside::Failed;
