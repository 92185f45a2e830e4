ghost use Rattle.std.specs.Prelude.{◌≡◌, ◌≢◌, ◌⊎◌, ℕ, false, List, map, string_bytes, Err};
ghost use Rattle.pagerd.specs.Commands.{Asks, AskNothing, AskNoText, IsWithin, reads};
ghost use Rattle.pagerd.specs.Outputs.{Answers};
ghost use Rattle.pagerd.specs.Outsides.{call, call_of, input_of};
ghost use Rattle.pagerd.specs.Top.{Answered, AnswersDue, Did};

use crate::checking::judge;
use crate::command::{Command, read_command};
use crate::generated::told_of;
use crate::output::{Answer, Output, Stop, status_of};
use crate::stepping::step;
use std::alloc::Global;
use up_outside::{Sink, Source, push_all};

/// The status where the source failed.
const SOURCE_FAILED: u8 = 4;
/// The status where the sink failed.
const SINK_FAILED: u8 = 5;
/// The status where memory ran out.
const OUT_OF_MEMORY: u8 = 7;

/// Does all that the program does with these words (those after its name), and gives its status.
///
/// | Status | Comes | The sink took |
/// |---|---|---|
/// | 0 | `step`: all was done and written | the journals' text |
/// | 0 | `check`: the journals are legal | `legal` |
/// | 0 | `gen SEED COUNT`: the generated script was done | the line that tells of its journal |
/// | 1 | `check`: the journals aren't legal | `illegal NAME ENTRY ..`, of the first entry at fault |
/// | 2 | the words are neither `step` nor `check`, nor `gen` and two numbers within their limits | `words` |
/// | 3 | the text is outside its grammar or a limit | `fault LINE WHY`, the first fault |
/// | 3 | `step`: a line has a form that isn't built yet | `fault LINE unbuilt`, the first such line |
/// | 4 | only where the source failed | nothing |
/// | 5 | only where the sink failed | some first bytes of the text that 0, 1, 2 or 3 would have written |
/// | 7 | want of memory | nothing |
pub fn alone<S: Source, K: Sink>(
    alloc: Global,
    words: &[String],
    source: &mut S,
    sink: &mut K,
) -> u8
    ensures did { Answered (call S.Source K.Sink words.now source.old source.new sink.old sink.new) result }
    ensures words { AskNothing (map string_bytes words.now) → (result ≡ 2) ⊎ (result ≡ 5) }
    ensures unread { AskNoText (map string_bytes words.now) → (source.new ≡ source.old) × (result ≢ 4) }
    ensures source { result ≢ 4 → S.faults source.new ≡ S.faults source.old }
    ensures sink { result ≢ 5 → K.faults sink.new ≡ K.faults sink.old }
    ensures due { AnswersDue (call S.Source K.Sink words.now source.old source.new sink.old sink.new) result }
{
    match read_command(words) {
        Some(command) => run(alloc, command, source, sink),
        None => match push_all(sink, b"words\n") {
            Ok(()) => status_of(Output::Words),
            Err(_) => SINK_FAILED,
        },
    }
}

/// Does a command, and writes what there is to tell.
fn run<S: Source, K: Sink>(alloc: Global, command: Command, source: &mut S, sink: &mut K) -> u8
    requires { IsWithin command }
    ensures { (words : List (List ℕ)) → Asks words command
        → Did (call_of S.Source K.Sink words source.old source.new sink.old sink.new) result }
{
    match answer(alloc, command, source) {
        Ok(answer) => match push_all(sink, answer.text.as_slice()) {
            Ok(()) => status_of(answer.output),
            Err(_) => SINK_FAILED,
        },
        Err(Stop::Source) => SOURCE_FAILED,
        Err(Stop::Memory) => OUT_OF_MEMORY,
    }
}

/// What there is to tell of a command.
fn answer<S: Source>(alloc: Global, command: Command, source: &mut S) -> Result<Answer, Stop>
    requires { IsWithin command }
    ensures answers { (words : List (List ℕ)) → Asks words command
        → Answers (input_of S.Source words source.old source.new) result }
    ensures unread { reads command ≡ false → (source.new ≡ source.old) × (result ≢ Err Stop.Source) }
{
    match command {
        Command::Step => step(alloc, source),
        Command::Check => judge(alloc, source),
        Command::Gen(seed) => match told_of(alloc, seed) {
            Ok(text) => {
                let output = Output::Summary;
                Ok(Answer { output, text })
            }
            Err(_) => Err(Stop::Memory),
        },
    }
}
