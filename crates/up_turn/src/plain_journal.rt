//! The plainest value for a turn, a list of entries, and how a caller takes turns with it.
ghost use Rattle.std.specs.Prelude.{◌≡◌, [], ◌∷◌, true, false, length, IfOk, OnOk, OnErr};
ghost use Rattle.up_turn.specs.Placing.{has};
ghost use Rattle.up_turn.specs.Added.{Added, Stays, entries_by};

use crate::chronicle::Chronicle;
use crate::pass::Pass;
use crate::turn::Turn;
use std::alloc::Global;
use std::sync::Wait;
use up_model::Entry;
use up_num::Memory;

/// Entries, and a number that never changes.
#[derive(Drop)]
pub struct PlainJournal {
    pub number: u32,
    pub entries: Vec<Entry>,
}

impl Chronicle for PlainJournal {
    type Origin = u32;

    ghost origin = { λ journal. journal.number };

    ghost list = { λ journal. journal.entries.items };

    fn count(&self) -> u64 {
        self.entries.len() as u64
    }
}

/// Enters, appends an entry, and leaves.
pub fn add<R: Wait>(
    rt: &R,
    turn: &Turn<PlainJournal>,
    pass: &mut Pass<PlainJournal>,
    entry: Entry,
) -> Result<(), Memory>
    requires turn { pass.old.turn ≡ turn.now.table }
    requires outside { pass.old.inside ≡ false }
    requires holds { has pass.old.numbers entry.who ≡ true }
    ensures stays { Stays pass.old pass.new }
    ensures ok { OnOk result (Added pass.old pass.new entry) }
    ensures err { OnErr result (pass.new.own ≡ pass.old.own) }
{
    let mut held = turn.enter(rt, pass);
    let added = held.state.entries.push(entry);
    turn.leave(pass, held);
    added?;
    Ok(())
}

/// Two actors take a turn each, which `close` ends.
pub fn take_turns<R: Wait>(
    rt: &R,
    alloc: Global,
    one: Entry,
    other: Entry,
) -> Result<PlainJournal, Memory>
    requires { (one.who ≡ 0) × (other.who ≡ 1) }
    ensures count { IfOk result (λ journal. length journal.entries.items ≡ 2) }
    ensures one { IfOk result (λ journal. entries_by 0 journal.entries.items ≡ one ∷ []) }
    ensures other { IfOk result (λ journal. entries_by 1 journal.entries.items ≡ other ∷ []) }
{
    let journal = PlainJournal {
        number: 0,
        entries: Vec::new(alloc),
    };
    let (turn, mut first) = match Turn::new(alloc, journal, 2) {
        Ok(made) => made,
        Err((memory, _)) => return Err(memory),
    };
    let mut second = turn.split(&mut first, 1);
    add(rt, &turn, &mut first, one)?;
    add(rt, &turn, &mut second, other)?;
    turn.join(&mut first, second);
    Ok(turn.close(first))
}
