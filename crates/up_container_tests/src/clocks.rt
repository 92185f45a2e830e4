ghost use Rattle.std.specs.Prelude.{◌≡◌};

use std::test::Fail;
use std::thread;
use up_clock::{Clock, ClockSeat};

#[test]
fn a_lone_seat_counts_its_ages(rt: HostRuntime) -> Result<(), Fail> {
    let (clock, mut seat) = Clock::new(rt.alloc())?;
    let answers = [
        clock.now(&mut seat),
        clock.age(&mut seat),
        clock.age(&mut seat),
        clock.now(&mut seat),
    ];
    assert!(rt; answers == [0, 1, 2, 2]);
    Ok(())
}

// The same by proof: the contracts alone tell what a lone seat is answered.
#[test]
fn contracts_tell_a_lone_seat_its_answers(rt: HostRuntime) -> Result<(), Fail> {
    let (clock, mut seat) = Clock::new(rt.alloc())?;
    let at_first = clock.now(&mut seat);
    let once = clock.age(&mut seat);
    let twice = clock.age(&mut seat);
    let at_last = clock.now(&mut seat);
    prove!(at_first == 0 && once == 1 && twice == 2 && at_last == 2);
    assert_eq!(rt; at_last, 2);
    Ok(())
}

#[test]
fn a_second_seat_sees_what_the_first_aged(rt: HostRuntime) -> Result<(), Fail> {
    let (clock, mut first) = Clock::new(rt.alloc())?;
    let mut second = clock.split(&mut first);
    assert_eq!(rt; clock.age(&mut first), 1);
    assert_eq!(rt; clock.now(&mut second), 1);
    clock.join(&mut first, second);
    assert_eq!(rt; clock.now(&mut first), 1);
    Ok(())
}

const ROUNDS: u64 = 10_000;

// Ages the clock many times, and answers whether each answer was greater than the one before.
fn age_often(clock: &Clock, seat: &mut ClockSeat) -> bool
    requires { seat.old.clock ≡ clock.now }
    ensures { seat.new.clock ≡ clock.now }
{
    let mut rising = true;
    let mut told = clock.now(seat);
    for _ in 0..ROUNDS {
        let answer = clock.age(seat);
        rising &= told < answer;
        told = answer;
    }
    rising
}

#[test]
fn two_threads_age_at_once(rt: HostRuntime) -> Result<(), Fail> {
    let (clock, mut first) = Clock::new(rt.alloc())?;
    let mut second = clock.split(&mut first);
    let (one, two) = thread::join_mut(
        &rt,
        &mut || age_often(&clock, &mut first),
        &mut || age_often(&clock, &mut second),
    );
    assert!(rt; one && two);
    let shown = clock.now(&mut first);
    assert!(rt; ROUNDS <= shown && shown <= 2 * ROUNDS, "{shown}");
    Ok(())
}
