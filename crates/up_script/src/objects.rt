ghost use Rattle.std.specs.Prelude.{◌≡◌, ◌≤◌, ◌<◌, [], ◌∷◌, ◌++◌, true, false, length, IfSome, IfOk, IfErr};
ghost use Rattle.std.specs.List.{list_all};
ghost use Rattle.up_script.specs.Objects.{object_named, is_image, image_named, has_image, is_numbered, with_counts, count_step, counted, is_served};
ghost use Rattle.up_script.specs.Sound.{is_fair_object, is_few};
ghost use Rattle.up_words.specs.declared.fault.Stop.TheVariants.{Memory as MemoryStop};

use crate::actors::Actors;
use crate::script::{ObjectLine, ObjectLines};
use std::alloc::Global;
use std::marker::Model;
use up_model::Birth;
use up_num::{Items, Memory};
use up_words::Stop;

/// The objects so far, at most 16.
#[derive(Debug, Drop)]
pub struct Objects {
    items: ObjectLines,
}

impl Model for Objects {
    ghost use Rattle.std.specs.Prelude.{List, length, ◌≤◌, ◌≡◌, true};
    ghost use Rattle.std.specs.List.{list_all};
    ghost use Rattle.up_script.specs.Sound.{is_fair_object};
    ghost use Rattle.up_script.specs.declared.script.ObjectLine.{ObjectLine};

    ghost Value = { List ObjectLine };

    ghost view = { λ objects. objects.items };

    ghost invariant = { λ objects. (length objects.items ≤ 16) × (list_all is_fair_object objects.items ≡ true) };
}

impl Objects {
    pub fn new(alloc: Global) -> Self
        ensures { result ≡ [] }
    {
        Objects {
            items: Items::new(alloc),
        }
    }

    pub fn count(&self) -> u32
        ensures count { result ≡ length self.now }
        ensures few { result ≤ 16 }
    {
        self.items.len() as u32
    }

    /// The number of the object of this name.
    pub fn find(&self, name: &[u8]) -> Option<u32>
        ensures found { result ≡ object_named name.now self.now }
        ensures within { IfSome result (λ object. object < length self.now) }
    {
        find_in(self.items.as_slice(), name)
    }

    /// An object has an image of this name.
    pub fn has_image_named(&self, name: &[u8]) -> bool
        ensures { result ≡ image_named name.now self.now }
    {
        find_image(self.items.as_slice(), name)
    }

    /// The object of this number has an image.
    pub fn has_image(&self, object: u32) -> bool
        ensures { result ≡ has_image self.now object }
    {
        match self.items.as_slice().get(object as usize) {
            None => false,
            Some(line) => line.birth.image,
        }
    }

    /// The object of this number is numbered.
    pub fn is_numbered(&self, object: u32) -> bool
        ensures { result ≡ is_numbered self.now object }
    {
        match self.items.as_slice().get(object as usize) {
            None => false,
            Some(line) => line.birth.numbered,
        }
    }

    pub fn push(self, object: ObjectLine) -> Result<Objects, Stop>
        requires few { length self < 16 }
        requires fair { is_fair_object object ≡ true }
        ensures ok { IfOk result (λ more. more ≡ self ++ object ∷ []) }
        ensures err { IfErr result (λ stop. stop ≡ MemoryStop) }
    {
        let Objects { mut items } = self;
        items.push(object)?;
        Ok(Objects { items })
    }

    /// The objects, with the counts of their users and pagers.
    pub fn counted(self, alloc: Global, actors: &Actors) -> Result<Objects, Memory>
        ensures made { IfOk result (λ made. made ≡ counted actors.now self) }
        ensures few { IfOk result (λ made. (length made ≤ 16) × (list_all is_few made ≡ true)) }
        ensures fair { IfOk result (λ made. list_all is_fair_object made ≡ true) }
    {
        let Objects { items } = self;
        let mut made = Objects::new(alloc);
        for line in items.into_vec() {
            made = made.push_counted(actors, line)?;
        }
        Ok(made)
    }

    fn push_counted(self, actors: &Actors, line: ObjectLine) -> Result<Objects, Memory>
        requires few { length self < 16 }
        requires fair { is_fair_object line ≡ true }
        ensures made { IfOk result (λ made. made ≡ count_step actors.now self line) }
        ensures few { list_all is_few self ≡ true → IfOk result (λ made. list_all is_few made ≡ true) }
        ensures fair { IfOk result (λ made. list_all is_fair_object made ≡ true) }
    {
        let Objects { mut items } = self;
        let line = count_line(actors, items.len() as u32, line);
        match items.push(line) {
            Ok(()) => Ok(Objects { items }),
            Err(_) => Err(Memory {}),
        }
    }

    /// A user and a pager act on each object.
    pub fn are_served(&self) -> bool
        ensures { result ≡ list_all is_served self.now }
    {
        are_served(self.items.as_slice())
    }

    pub fn into_lines(self) -> ObjectLines
        ensures { result ≡ self }
    {
        let Objects { items } = self;
        items
    }
}

fn count_line(actors: &Actors, object: u32, line: ObjectLine) -> ObjectLine
    ensures made { result ≡ with_counts actors.now object line }
    ensures few { is_few result ≡ true }
{
    let ObjectLine {
        number,
        name,
        birth,
        image,
    } = line;
    let birth = Birth {
        pages: birth.pages,
        limit: birth.limit,
        trap: birth.trap,
        users: actors.users_of(object),
        pagers: actors.pagers_of(object),
        image: birth.image,
        numbered: birth.numbered,
    };
    ObjectLine {
        number,
        name,
        birth,
        image,
    }
}

fn find_in(objects: &[ObjectLine], name: &[u8]) -> Option<u32>
    requires { length objects.now ≤ 16 }
    ensures found { result ≡ object_named name.now objects.now }
    ensures within { IfSome result (λ object. object < length objects.now) }
{
    match objects
        .iter()
        .position(|object| object.name.as_slice() == name)
    {
        None => None,
        Some(object) => Some(object as u32),
    }
}

fn names_image(image: &Option<up_num::Bytes>, name: &[u8]) -> bool
    ensures { result ≡ is_image name.now image.now }
{
    match image {
        None => false,
        Some(image) => image.as_slice() == name,
    }
}

fn find_image(objects: &[ObjectLine], name: &[u8]) -> bool
    ensures { result ≡ image_named name.now objects.now }
{
    objects
        .iter()
        .any(|object| names_image(&object.image, name))
}

fn is_served_line(object: &ObjectLine) -> bool
    ensures { result ≡ is_served object.now }
{
    0 < object.birth.users && 0 < object.birth.pagers
}

fn are_served(objects: &[ObjectLine]) -> bool
    ensures { result ≡ list_all is_served objects.now }
{
    objects.iter().all(|object| is_served_line(object))
}
