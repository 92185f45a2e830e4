ghost use Rattle.std.specs.Prelude.{◌≡◌, true, false, IfOk};
ghost use Rattle.up_turn.specs.Placing.{has};
ghost use Rattle.up_turn.specs.Standing.{first_pass};
ghost use Rattle.up_turn.specs.Added.{Stays};

use std::alloc::Global;
use std::sync::Wait;
use std::test::Fail;
use std::thread;
use std::thread::Threads;
use up_model::{Call, Entry, Reply};
use up_num::Memory;
use up_turn::plain_journal::{PlainJournal, add};
use up_turn::{Pass, Turn};

// A turn over an empty journal, and its first pass.
fn begin(alloc: Global, actors: u32) -> Result<(Turn<PlainJournal>, Pass<PlainJournal>), Memory>
    ensures turn { IfOk result (λ made. made.0.actors ≡ actors) }
    ensures pass { IfOk result (λ made. made.1 ≡ first_pass made.0.table actors) }
{
    let journal = PlainJournal {
        number: 7,
        entries: Vec::new(alloc),
    };
    match Turn::new(alloc, journal, actors) {
        Ok(made) => Ok(made),
        Err((memory, _)) => Err(memory),
    }
}

// An actor's entry, which has a number in its epoch.
fn entry(who: u32, number: u64) -> Entry
    ensures { result.who ≡ who }
{
    Entry {
        who,
        epoch: number,
        call: Call::Packet,
        reply: Reply::Empty,
    }
}

#[test]
fn two_actors_take_turns(rt: HostRuntime) -> Result<(), Fail> {
    let (turn, mut first) = begin(rt.alloc(), 2)?;
    let mut second = turn.split(&mut first, 1);
    let before = turn.front(&mut second);
    add(&rt, &turn, &mut first, entry(0, 10))?;
    let between = turn.front(&mut second);
    add(&rt, &turn, &mut second, entry(1, 11))?;
    let after = turn.front(&mut first);
    turn.join(&mut first, second);
    let journal = turn.close(first);
    assert_eq!(rt; (before, between, after), (0, 1, 2));
    assert!(rt;
        journal.entries.len() == 2
            && journal.entries[0].epoch == 10
            && journal.entries[1].epoch == 11
    );
    Ok(())
}

const EACH: u64 = 1_000;

// Adds many entries, numbered from 0 on. Whether all were added, and no look at the front found less than one before.
fn add_many<R: Wait>(
    rt: &R,
    turn: &Turn<PlainJournal>,
    pass: &mut Pass<PlainJournal>,
    who: u32,
) -> bool
    requires turn { pass.old.turn ≡ turn.now.table }
    requires outside { pass.old.inside ≡ false }
    requires holds { has pass.old.numbers who ≡ true }
    ensures stays { Stays pass.old pass.new }
{
    let mut good = true;
    let mut told = turn.front(pass);
    for number in 0..EACH {
        good &= add(rt, turn, pass, entry(who, number)).is_ok();
        let front = turn.front(pass);
        good &= told < front;
        told = front;
    }
    good
}

// Four threads add entries at once, each by a number of its own.
fn add_at_once<R: Threads + Wait + Sync>(
    rt: &R,
    turn: &Turn<PlainJournal>,
    first: &mut Pass<PlainJournal>,
    second: &mut Pass<PlainJournal>,
    third: &mut Pass<PlainJournal>,
    fourth: &mut Pass<PlainJournal>,
) -> bool
    requires turn { (first.old.turn ≡ turn.now.table) × (second.old.turn ≡ turn.now.table) × (third.old.turn ≡ turn.now.table) × (fourth.old.turn ≡ turn.now.table) }
    requires outside { (first.old.inside ≡ false) × (second.old.inside ≡ false) × (third.old.inside ≡ false) × (fourth.old.inside ≡ false) }
    requires holds { (has first.old.numbers 0 ≡ true) × (has second.old.numbers 1 ≡ true) × (has third.old.numbers 2 ≡ true) × (has fourth.old.numbers 3 ≡ true) }
    ensures first { Stays first.old first.new }
    ensures second { Stays second.old second.new }
    ensures third { Stays third.old third.new }
    ensures fourth { Stays fourth.old fourth.new }
{
    let ((one, two), (three, four)) = thread::join_mut(
        rt,
        &mut ||
            requires turn { (first.now.turn ≡ turn.now.table) × (second.now.turn ≡ turn.now.table) }
            requires outside { (first.now.inside ≡ false) × (second.now.inside ≡ false) }
            requires holds { (has first.now.numbers 0 ≡ true) × (has second.now.numbers 1 ≡ true) }
        { add_two(rt, turn, first, 0, second, 1) },
        &mut ||
            requires turn { (third.now.turn ≡ turn.now.table) × (fourth.now.turn ≡ turn.now.table) }
            requires outside { (third.now.inside ≡ false) × (fourth.now.inside ≡ false) }
            requires holds { (has third.now.numbers 2 ≡ true) × (has fourth.now.numbers 3 ≡ true) }
        { add_two(rt, turn, third, 2, fourth, 3) },
    );
    one && two && three && four
}

// Two threads do.
fn add_two<R: Threads + Wait + Sync>(
    rt: &R,
    turn: &Turn<PlainJournal>,
    first: &mut Pass<PlainJournal>,
    one: u32,
    second: &mut Pass<PlainJournal>,
    two: u32,
) -> (bool, bool)
    requires turn { (first.old.turn ≡ turn.now.table) × (second.old.turn ≡ turn.now.table) }
    requires outside { (first.old.inside ≡ false) × (second.old.inside ≡ false) }
    requires holds { (has first.old.numbers one ≡ true) × (has second.old.numbers two ≡ true) }
    ensures first { Stays first.old first.new }
    ensures second { Stays second.old second.new }
{
    thread::join_mut(
        rt,
        &mut || add_many(rt, turn, first, one),
        &mut || add_many(rt, turn, second, two),
    )
}

// Whether the journal has the entries 0 to 999 of each of four actors, in that order, and no other.
fn has_all_in_order(journal: &PlainJournal) -> bool {
    let mut next = [0; 4];
    for entry in &journal.entries {
        let who = entry.who as usize;
        if who >= 4 || entry.epoch != next[who] {
            return false;
        }
        next[who] = entry.epoch.wrapping_add(1);
    }
    next == [EACH; 4]
}

#[test]
fn four_threads_add_a_thousand_entries_each(rt: HostRuntime) -> Result<(), Fail> {
    let (turn, mut first) = begin(rt.alloc(), 4)?;
    let mut second = turn.split(&mut first, 1);
    let mut third = turn.split(&mut first, 2);
    let mut fourth = turn.split(&mut first, 3);
    let good = add_at_once(&rt, &turn, &mut first, &mut second, &mut third, &mut fourth);
    turn.join(&mut third, fourth);
    turn.join(&mut first, second);
    turn.join(&mut first, third);
    let front = turn.front(&mut first);
    let journal = turn.close(first);
    assert!(rt; good);
    assert_eq!(rt; front, 4 * EACH);
    assert!(rt; has_all_in_order(&journal));
    Ok(())
}
