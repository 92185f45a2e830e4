ghost use Rattle.std.specs.Prelude.{◌≡◌, Some, None};

use std::marker::Model;
use std::snapshot::Snapshot;
use up_num::Bytes;

/// A disk that was brought, with its name, as it was then.
#[derive(Drop)]
pub(crate) struct Noted<D> {
    name: Bytes,
    disk: Snapshot<D>,
}

impl<D> Model for Noted<D> {
    ghost use Rattle.up_disk.specs.Shelved.{Brought};

    ghost Value = { Brought D };

    ghost view = { λ noted. record { name = noted.name; disk = noted.disk.value } };
}

impl<D> Noted<D> {
    pub fn of(name: Bytes, disk: &D) -> Noted<D>
        ensures { result ≡ record { name = name; disk = disk.now } }
    {
        let disk = Snapshot::of(disk);
        Noted { name, disk }
    }
}

/// The place of a disk that was brought: what was put back there last, as it was then.
#[derive(Drop)]
pub(crate) struct Place<D> {
    disk: Option<Snapshot<D>>,
}

impl<D> Model for Place<D> {
    ghost use Rattle.std.specs.Prelude.{Option};
    ghost use Rattle.std.specs.Option.{option_map};

    ghost Value = { Option D };

    ghost view = { λ place. option_map (λ disk. disk.value) place.disk };
}

impl<D> Place<D> {
    pub fn empty() -> Place<D>
        ensures { result ≡ None }
    {
        Place { disk: None }
    }

    pub fn of(disk: &D) -> Place<D>
        ensures { result ≡ Some disk.now }
    {
        let disk = Snapshot::of(disk);
        Place { disk: Some(disk) }
    }
}
