ghost use Rattle.std.specs.Prelude.{◌≡◌, ◌↔◌, [], ◌∷◌, map, string_bytes, IsTrue, IfSome, IsNone};
ghost use Rattle.pagerd.specs.Commands.{Asks, AskNothing, IsWithin};

use crate::generated::{Seed, read_seed};

/// What the words of a call ask for.
#[derive(Clone, Copy, PartialEq, Eq, Debug)]
pub enum Command {
    Step,
    Check,
    Gen(Seed),
}

/// The command that the words ask for.
pub fn read_command(words: &[String]) -> Option<Command>
    ensures some { IfSome result (λ command. Asks (map string_bytes words.now) command) }
    ensures within { IfSome result IsWithin }
    ensures none { IsNone result → AskNothing (map string_bytes words.now) }
{
    if is_word(words, "step") {
        return Some(Command::Step);
    }
    if is_word(words, "check") {
        return Some(Command::Check);
    }
    match read_seed(words) {
        Some(seed) => Some(Command::Gen(seed)),
        None => None,
    }
}

fn is_word(words: &[String], wanted: &str) -> bool
    ensures { IsTrue result ↔ (map string_bytes words.now ≡ wanted.now ∷ []) }
{
    match words {
        [word] => word.as_str() == wanted,
        _ => false,
    }
}
