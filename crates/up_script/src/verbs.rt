ghost use Rattle.std.specs.Prelude.{◌≡◌, ◌&&◌, codes};
ghost use Rattle.up_words.specs.Words.{verb_is};
ghost use Rattle.up_script.specs.Versions.{has_modes};
ghost use Rattle.up_words.specs.Refusals.{code_in};
ghost use Rattle.up_script.specs.Verbs.{or_on, fail_verb, user_verb, pager_verb, other_verb, lone_verb, verb_of, is_user_range, says_on, says_alone, says, call_over, role_of};

use crate::script::Kind;
use crate::versions::has_modes;
use up_model::{Brought, Call, HintKind, Role};
use up_num::{Code, PageRange};
use up_words::{Words, spelled_code};

/// What is done on no object.
#[derive(Clone, Copy, PartialEq, Eq, Debug)]
pub enum Lone {
    Go,
    Age,
    Watch,
    Relieve,
    Recall,
    Lend,
}

/// What is done over a range of an object's pages.
#[derive(Clone, Copy, PartialEq, Eq, Debug)]
pub enum Over {
    Always,
    Cold,
    Pin,
    Unpin,
    Zero,
    Dirty,
    End,
    Fail(Code),
    Begin(bool),
}

/// What is done on an object.
#[derive(Clone, Copy, PartialEq, Eq, Debug)]
pub enum On {
    Read,
    Write,
    Supply,
    Range(Over),
    /// An end that names its begin.
    EndOf,
    Query,
    Resize,
    Turn,
    Evict,
    Borrow,
    Sync,
    Packet,
    Detach,
    Leave,
    /// Whether the state is reset.
    Stats(bool),
}

/// The verb of an actor's line.
#[derive(Clone, Copy, PartialEq, Eq, Debug)]
pub enum Verb {
    Alone(Lone),
    OnObject(On),
}

fn read_user_verb(words: &Words<'_>) -> Option<On>
    ensures { result ≡ user_verb words.now }
{
    if words.has(1, b"read", 5) {
        Some(On::Read)
    } else if words.has(1, b"write", 5) {
        Some(On::Write)
    } else if words.has(1, b"always", 5) {
        Some(On::Range(Over::Always))
    } else if words.has(1, b"cold", 5) {
        Some(On::Range(Over::Cold))
    } else if words.has(1, b"pin", 5) {
        Some(On::Range(Over::Pin))
    } else if words.has(1, b"unpin", 5) {
        Some(On::Range(Over::Unpin))
    } else if words.has(1, b"resize", 4) {
        Some(On::Resize)
    } else if words.has(1, b"zero", 5) {
        Some(On::Range(Over::Zero))
    } else if words.has(1, b"sync", 3) {
        Some(On::Sync)
    } else if words.has(1, b"leave", 3) {
        Some(On::Leave)
    } else {
        None
    }
}

fn read_fail_verb(word: &[u8]) -> Option<On>
    ensures { result ≡ fail_verb (code_in word.now) }
{
    match spelled_code(word) {
        None => None,
        Some(code) => Some(On::Range(Over::Fail(code))),
    }
}

fn names_begin(version: u32, words: &Words<'_>) -> bool
    ensures { result ≡ (verb_is words.now 1 (codes "end") 6 && has_modes version) }
{
    words.has(1, b"end", 6) && has_modes(version)
}

fn read_pager_verb(version: u32, words: &Words<'_>) -> Option<On>
    ensures { result ≡ pager_verb version words.now }
{
    if words.has(1, b"packet", 3) {
        Some(On::Packet)
    } else if words.has(1, b"supply", 6) {
        Some(On::Supply)
    } else if words.has(1, b"fail", 6) {
        read_fail_verb(words.at(5))
    } else if words.has(1, b"dirty", 5) {
        Some(On::Range(Over::Dirty))
    } else if words.has(1, b"begin", 6) && words.reads(5, b"any") {
        Some(On::Range(Over::Begin(false)))
    } else if words.has(1, b"begin", 6) && words.reads(5, b"zero") {
        Some(On::Range(Over::Begin(true)))
    } else if words.has(1, b"end", 5) {
        Some(On::Range(Over::End))
    } else if names_begin(version, words) {
        Some(On::EndOf)
    } else if words.has(1, b"query", 6) {
        Some(On::Query)
    } else if words.has(1, b"stats", 4) && words.reads(3, b"keep") {
        Some(On::Stats(false))
    } else if words.has(1, b"stats", 4) && words.reads(3, b"reset") {
        Some(On::Stats(true))
    } else if words.has(1, b"detach", 3) {
        Some(On::Detach)
    } else {
        None
    }
}

fn read_other_verb(words: &Words<'_>) -> Option<On>
    ensures { result ≡ other_verb words.now }
{
    if words.has(1, b"turn", 4) {
        Some(On::Turn)
    } else if words.has(1, b"evict", 5) {
        Some(On::Evict)
    } else if words.has(1, b"borrow", 4) {
        Some(On::Borrow)
    } else {
        None
    }
}

fn read_lone_verb(words: &Words<'_>) -> Option<Lone>
    ensures { result ≡ lone_verb words.now }
{
    if words.has(1, b"go", 2) {
        Some(Lone::Go)
    } else if words.has(1, b"age", 2) {
        Some(Lone::Age)
    } else if words.has(1, b"watch", 2) {
        Some(Lone::Watch)
    } else if words.has(1, b"relieve", 3) {
        Some(Lone::Relieve)
    } else if words.has(1, b"recall", 2) {
        Some(Lone::Recall)
    } else if words.has(1, b"lend", 2) {
        Some(Lone::Lend)
    } else {
        None
    }
}

fn read_object_verb(version: u32, words: &Words<'_>) -> Option<On>
    ensures { result ≡ or_on (user_verb words.now) (or_on (pager_verb version words.now) (other_verb words.now)) }
{
    if let Some(verb) = read_user_verb(words) {
        return Some(verb);
    }
    if let Some(verb) = read_pager_verb(version, words) {
        return Some(verb);
    }
    read_other_verb(words)
}

/// The verb of an actor's line in a script of this version, by its second word, its number of words and its fixed words.
pub fn read_verb(version: u32, words: &Words<'_>) -> Option<Verb>
    ensures { result ≡ verb_of version words.now }
{
    if let Some(verb) = read_object_verb(version, words) {
        return Some(Verb::OnObject(verb));
    }
    match read_lone_verb(words) {
        None => None,
        Some(verb) => Some(Verb::Alone(verb)),
    }
}

impl Over {
    fn is_user_range(self) -> bool
        ensures { result ≡ is_user_range self }
    {
        matches!(
            self,
            Over::Always | Over::Cold | Over::Pin | Over::Unpin | Over::Zero
        )
    }

    /// The call over this range. It brings nothing yet.
    pub fn call(self, range: PageRange) -> Call
        ensures { result ≡ call_over self range }
    {
        let brought = Brought::Nothing;
        match self {
            Over::Always => Call::Hint {
                range,
                kind: HintKind::Always,
            },
            Over::Cold => Call::Hint {
                range,
                kind: HintKind::Cold,
            },
            Over::Pin => Call::Pin { range, brought },
            Over::Unpin => Call::Unpin { range },
            Over::Zero => Call::Zero { range },
            Over::Dirty => Call::Dirty { range, brought },
            Over::End => Call::End { range, of: None },
            Over::Fail(code) => Call::Fail { range, code },
            Over::Begin(zero) => Call::Begin { range, zero },
        }
    }
}

impl On {
    fn is_said_by(self, kind: Kind) -> bool
        ensures { result ≡ says_on self kind }
    {
        match self {
            On::Read | On::Write | On::Resize | On::Sync => kind.is_user(),
            On::Leave => !kind.is_evictor(),
            On::Range(call) => {
                if call.is_user_range() {
                    kind.is_user()
                } else {
                    kind.is_pager()
                }
            }
            On::Turn => kind.is_worker(),
            On::Evict | On::Borrow => kind.is_evictor(),
            On::Supply | On::EndOf | On::Query | On::Packet | On::Detach | On::Stats(_) =>
                kind.is_pager(),
        }
    }
}

impl Lone {
    fn is_said_by(self, kind: Kind) -> bool
        ensures { result ≡ says_alone self kind }
    {
        match self {
            Lone::Go => true,
            Lone::Age | Lone::Watch | Lone::Relieve | Lone::Recall | Lone::Lend => {
                kind.is_evictor()
            }
        }
    }
}

impl Verb {
    /// The verb is one of an actor of this kind.
    pub fn is_said_by(self, kind: Kind) -> bool
        ensures { result ≡ says self kind }
    {
        match self {
            Verb::Alone(verb) => verb.is_said_by(kind),
            Verb::OnObject(verb) => verb.is_said_by(kind),
        }
    }
}

/// The role in which an actor leaves.
pub fn role_in(kind: Kind) -> Role
    ensures { result ≡ role_of kind }
{
    if kind.is_user() {
        Role::User
    } else {
        Role::Pager
    }
}
