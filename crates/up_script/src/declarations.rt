ghost use Rattle.std.specs.Prelude.{◌≡◌, ◌<◌, ◌&&◌, [], true, drop, length, IfOk};
ghost use Rattle.up_words.specs.Names.{is_name};
ghost use Rattle.up_script.specs.Sound.{is_sound_limit, is_sound_image, are_sound_objects};
ghost use Rattle.std.specs.List.{list_all};
ghost use Rattle.up_words.specs.ReadSteps.{Gives, each};
ghost use Rattle.up_script.specs.Declarations.{is_first, may_loan, may_level, may_object, nothing_declared, frames_line, loan_line, levels_line, new_name, limit_in, image_in, object_line, object_in, bind_step, may_serve, with_actor, bound_line, first_numbers, evictor_line, binds, actor_line, is_trap_word, says_numbered, says_object, declaration_line, is_whole, with_all_counted};

use crate::actors::{Actors, is_in};
use crate::objects::Objects;
use crate::script::{ActorLine, Kind, Numbers, ObjectLine};
use crate::versions::{has_modes, object_size, says_mode};
use std::alloc::Global;
use up_model::Birth;
use up_num::{Bytes, Items, Memory};
use up_words::{Stop, Why, Words, read_between, spells_name};

/// The greatest number of pages of an object.
const PAGES: u64 = 65_536;

/// Which declaration came last. Each kind has its place in the order.
#[derive(Clone, Copy, PartialEq, Eq, Debug)]
pub enum Last {
    Nothing,
    Frames,
    Loan,
    Levels,
    Object,
    Actor,
}

/// How many frames there are, the lines that say so, and the marks.
#[derive(Clone, Copy, PartialEq, Eq, Debug)]
pub struct FrameCounts {
    pub frames: u32,
    pub frames_line: u32,
    pub loan: u32,
    pub loan_line: u32,
    pub warn: u32,
    pub critical: u32,
}

/// What the declarations so far say.
#[derive(Debug, Drop)]
pub struct Declared {
    pub version: u32,
    pub last: Last,
    pub stock: FrameCounts,
    pub objects: Objects,
    pub actors: Actors,
}

impl Last {
    pub fn is_first(self) -> bool
        ensures { result ≡ is_first self }
    {
        matches!(self, Last::Nothing)
    }

    fn may_loan(self) -> bool
        ensures { result ≡ may_loan self }
    {
        matches!(self, Last::Frames)
    }

    fn may_level(self) -> bool
        ensures { result ≡ may_level self }
    {
        matches!(self, Last::Frames | Last::Loan)
    }

    fn may_object(self) -> bool
        ensures { result ≡ may_object self }
    {
        !matches!(self, Last::Nothing | Last::Actor)
    }
}

impl Declared {
    /// Nothing is declared yet.
    pub fn new(alloc: Global, version: u32) -> Declared
        ensures { result ≡ nothing_declared version }
    {
        Declared {
            version,
            last: Last::Nothing,
            stock: FrameCounts {
                frames: 0,
                frames_line: 0,
                loan: 0,
                loan_line: 0,
                warn: 0,
                critical: 0,
            },
            objects: Objects::new(alloc),
            actors: Actors::new(alloc),
        }
    }

    /// The object that a word names.
    pub fn object(&self, word: &[u8]) -> Result<u32, Stop>
        ensures value { Gives (λ object. object) result (object_in self.now word.now) }
        ensures within { IfOk result (λ object. object < length self.now.objects) }
    {
        match self.objects.find(word) {
            None => Err(Stop::Found(Why::Name)),
            Some(object) => Ok(object),
        }
    }

    /// All is there that a script needs. The counts of users and pagers have to be made.
    pub fn is_whole(&self) -> bool
        ensures { result ≡ is_whole self.now }
    {
        !self.last.is_first() && 0 < self.objects.count() && self.objects.are_served()
    }

    /// The declarations, with the counts of each object's users and pagers.
    pub fn counted(self, alloc: Global) -> Result<Declared, Memory>
        ensures made { IfOk result (λ made. made ≡ with_all_counted self) }
        ensures sound { IfOk result (λ made. is_whole made ≡ true → are_sound_objects made.objects ≡ true) }
    {
        let Declared {
            version,
            last,
            stock,
            objects,
            actors,
        } = self;
        let objects = objects.counted(alloc, &actors)?;
        Ok(Declared {
            version,
            last,
            stock,
            objects,
            actors,
        })
    }
}

fn read_frames(line: u32, declared: Declared, words: &Words<'_>) -> Result<Declared, Stop>
    ensures { Gives (λ more. more) result (frames_line line declared words.now) }
{
    let frames = read_between(1, 16384, words.at(1))? as u32;
    Ok(Declared {
        last: Last::Frames,
        stock: FrameCounts {
            frames,
            frames_line: line,
            loan: 0,
            loan_line: 0,
            warn: frames / 4,
            critical: frames / 8,
        },
        ..declared
    })
}

fn read_loan(line: u32, declared: Declared, words: &Words<'_>) -> Result<Declared, Stop>
    ensures { Gives (λ more. more) result (loan_line line declared words.now) }
{
    let loan = read_between(1, 4096, words.at(1))? as u32;
    Ok(Declared {
        last: Last::Loan,
        stock: FrameCounts {
            loan,
            loan_line: line,
            ..declared.stock
        },
        ..declared
    })
}

fn read_levels(declared: Declared, words: &Words<'_>) -> Result<Declared, Stop>
    ensures { Gives (λ more. more) result (levels_line declared words.now) }
{
    let warn = read_between(0, u64::from(declared.stock.frames), words.at(1))? as u32;
    let critical = read_between(0, u64::from(warn), words.at(2))? as u32;
    Ok(Declared {
        last: Last::Levels,
        stock: FrameCounts {
            warn,
            critical,
            ..declared.stock
        },
        ..declared
    })
}

fn read_name(alloc: Global, declared: &Declared, word: &[u8]) -> Result<Bytes, Stop>
    ensures value { Gives (λ name. name) result (new_name declared.now word.now) }
    ensures form { IfOk result (λ name. is_name name ≡ true) }
{
    if !spells_name(word) {
        return Err(Stop::Found(Why::Name));
    }
    if declared.objects.find(word).is_some() || declared.actors.find(word).is_some() {
        return Err(Stop::Found(Why::Name));
    }
    Ok(Items::from_slice(alloc, word)?)
}

fn read_limit(pages: u32, word: &[u8]) -> Result<Option<u32>, Stop>
    ensures value { Gives (λ limit. limit) result (limit_in pages word.now) }
    ensures sound { IfOk result (λ limit. is_sound_limit pages limit ≡ true) }
{
    if word == b"-".as_slice() {
        return Ok(None);
    }
    let limit = read_between(u64::from(pages), PAGES, word)?;
    Ok(Some(limit as u32))
}

fn read_image(alloc: Global, declared: &Declared, word: &[u8]) -> Result<Option<Bytes>, Stop>
    ensures value { Gives (λ image. image) result (image_in declared.now word.now) }
    ensures sound { IfOk result (λ image. is_sound_image image ≡ true) }
{
    if word == b"-".as_slice() {
        return Ok(None);
    }
    if !spells_name(word) || declared.objects.has_image_named(word) {
        return Err(Stop::Found(Why::Name));
    }
    let image = Items::from_slice(alloc, word)?;
    Ok(Some(image))
}

fn says_numbered(version: u32, words: &Words<'_>) -> bool
    ensures { result ≡ says_numbered version words.now }
{
    has_modes(version) && words.reads(6, b"numbered")
}

fn read_object(
    alloc: Global,
    line: u32,
    declared: Declared,
    words: &Words<'_>,
) -> Result<Declared, Stop>
    ensures { Gives (λ more. more) result (object_line line declared words.now) }
{
    let name = read_name(alloc, &declared, words.at(1))?;
    let pages = read_between(0, PAGES, words.at(2))? as u32;
    let limit = read_limit(pages, words.at(3))?;
    let image = read_image(alloc, &declared, words.at(5))?;
    if 16 <= declared.objects.count() {
        return Err(Stop::Found(Why::Limit));
    }
    let birth = Birth {
        pages,
        limit,
        trap: words.reads(4, b"trap"),
        users: 0,
        pagers: 0,
        image: image.is_some(),
        numbered: says_numbered(declared.version, words),
    };
    let Declared {
        version,
        last: _,
        stock,
        objects,
        actors,
    } = declared;
    let objects = objects.push(ObjectLine {
        number: line,
        name,
        birth,
        image,
    })?;
    Ok(Declared {
        version,
        last: Last::Object,
        stock,
        objects,
        actors,
    })
}

fn bind(declared: &Declared, bound: Numbers, word: &[u8]) -> Result<Numbers, Stop>
    ensures { Gives (λ more. more) result (bind_step declared.now bound word.now) }
{
    let object = declared.object(word)?;
    if is_in(bound.as_slice(), object) {
        return Err(Stop::Found(Why::Name));
    }
    let mut more = bound;
    more.push(object)?;
    Ok(more)
}

fn read_bindings(alloc: Global, declared: &Declared, words: &Words<'_>) -> Result<Numbers, Stop>
    ensures { Gives (λ bound. bound) result (each (bind_step declared.now) [] (drop 2 words.now)) }
{
    let mut bound = Items::new(alloc);
    for at in 2..words.len() {
        bound = bind(declared, bound, words.at(at))?;
    }
    Ok(bound)
}

fn serves(kind: Kind, objects: &Objects, object: u32) -> bool
    ensures { result ≡ may_serve kind objects.now object }
{
    match kind {
        Kind::Pager => !objects.has_image(object),
        Kind::Worker => objects.has_image(object),
        Kind::User | Kind::Evictor => true,
    }
}

fn serves_all(kind: Kind, objects: &Objects, bound: &[u32]) -> bool
    ensures { result ≡ list_all (may_serve kind objects.now) bound.now }
{
    bound.iter().all(|object| serves(kind, objects, *object))
}

fn add_actor(declared: Declared, actor: ActorLine) -> Result<Declared, Stop>
    ensures { Gives (λ more. more) result (with_actor declared actor) }
{
    if declared.actors.is_full() {
        return Err(Stop::Found(Why::Limit));
    }
    let Declared {
        version,
        last: _,
        stock,
        objects,
        actors,
    } = declared;
    let actors = actors.push(actor)?;
    Ok(Declared {
        version,
        last: Last::Actor,
        stock,
        objects,
        actors,
    })
}

fn read_bound(
    alloc: Global,
    kind: Kind,
    line: u32,
    declared: Declared,
    words: &Words<'_>,
) -> Result<Declared, Stop>
    ensures { Gives (λ more. more) result (bound_line kind line declared words.now) }
{
    let name = read_name(alloc, &declared, words.at(1))?;
    let objects = read_bindings(alloc, &declared, words)?;
    if !serves_all(kind, &declared.objects, objects.as_slice()) {
        return Err(Stop::Found(Why::Role));
    }
    add_actor(
        declared,
        ActorLine {
            number: line,
            name,
            kind,
            objects,
        },
    )
}

fn number_all(alloc: Global, count: u32) -> Result<Numbers, Memory>
    ensures { IfOk result (λ numbers. numbers ≡ first_numbers count) }
{
    let mut numbers = Items::new(alloc);
    for number in 0..count {
        if let Err(_) = numbers.push(number) {
            return Err(Memory {});
        }
    }
    Ok(numbers)
}

fn read_evictor(
    alloc: Global,
    line: u32,
    declared: Declared,
    words: &Words<'_>,
) -> Result<Declared, Stop>
    ensures { Gives (λ more. more) result (evictor_line line declared words.now) }
{
    let name = read_name(alloc, &declared, words.at(1))?;
    let objects = number_all(alloc, declared.objects.count())?;
    add_actor(
        declared,
        ActorLine {
            number: line,
            name,
            kind: Kind::Evictor,
            objects,
        },
    )
}

fn has_bindings(words: &Words<'_>, kind: &[u8]) -> bool
    ensures { result ≡ binds words.now kind.now }
{
    words.reads(0, kind) && 3 <= words.len()
}

fn read_actor(
    alloc: Global,
    line: u32,
    declared: Declared,
    words: &Words<'_>,
) -> Result<Declared, Stop>
    ensures { Gives (λ more. more) result (actor_line line declared words.now) }
{
    if has_bindings(words, b"user") {
        read_bound(alloc, Kind::User, line, declared, words)
    } else if has_bindings(words, b"pager") {
        read_bound(alloc, Kind::Pager, line, declared, words)
    } else if words.has(0, b"worker", 3) {
        read_bound(alloc, Kind::Worker, line, declared, words)
    } else if words.has(0, b"evictor", 2) {
        read_evictor(alloc, line, declared, words)
    } else {
        Err(Stop::Found(Why::Word))
    }
}

fn says_trap(word: &[u8]) -> bool
    ensures { result ≡ is_trap_word word.now }
{
    word == b"trap".as_slice() || word == b"free".as_slice()
}

fn says_object(version: u32, words: &Words<'_>) -> bool
    ensures { result ≡ says_object version words.now }
{
    words.has(0, b"object", object_size(version))
        && says_trap(words.at(4))
        && says_mode(version, words.at(6))
}

/// A line that declares frames, an object or an actor.
pub fn read_declaration(
    alloc: Global,
    line: u32,
    declared: Declared,
    words: &Words<'_>,
) -> Result<Declared, Stop>
    ensures { Gives (λ more. more) result (declaration_line line declared words.now) }
{
    if words.has(0, b"frames", 2) && declared.last.is_first() {
        read_frames(line, declared, words)
    } else if words.has(0, b"loan", 2) && declared.last.may_loan() {
        read_loan(line, declared, words)
    } else if words.has(0, b"levels", 3) && declared.last.may_level() {
        read_levels(declared, words)
    } else if says_object(declared.version, words) && declared.last.may_object() {
        read_object(alloc, line, declared, words)
    } else if declared.last.is_first() {
        Err(Stop::Found(Why::Word))
    } else {
        read_actor(alloc, line, declared, words)
    }
}
