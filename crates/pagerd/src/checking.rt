ghost use Rattle.std.specs.Prelude.{ℕ, List, IfOk};
ghost use Rattle.pagerd.specs.Commands.{Asks};
ghost use Rattle.pagerd.specs.Outputs.{Answers, OfJournals};
ghost use Rattle.pagerd.specs.Outsides.{input_of};

use crate::command::Command;
use crate::output::{Answer, Output, Stop};
use crate::text::{fault_at, illegal_at, why_word};
use std::alloc::Global;
use up_check::{Verdict, check};
use up_num::Memory;
use up_outside::{ReadStop, Source, read_to};
use up_text::read_journals;
use up_words::ReadFault;

/// The greatest length of a text of journals.
const TEXT: usize = 67_108_864;

/// Reads journals, judges them, and gives what is to be told.
pub fn judge<S: Source>(alloc: Global, source: &mut S) -> Result<Answer, Stop>
    ensures { (words : List (List ℕ)) → Asks words Command.Check
        → Answers (input_of S.Source words source.old source.new) result }
{
    let bytes = match read_to(alloc, source, TEXT) {
        Ok(bytes) => bytes,
        Err(ReadStop::Source) => return Err(Stop::Source),
        Err(ReadStop::Memory) => return Err(Stop::Memory),
    };
    match judge_text(alloc, bytes.as_slice()) {
        Ok(answer) => Ok(answer),
        Err(_) => Err(Stop::Memory),
    }
}

/// What is to be told of a text of journals.
fn judge_text(alloc: Global, bytes: &[u8]) -> Result<Answer, Memory>
    ensures { IfOk result (λ answer. OfJournals answer.output bytes.now answer.text.items) }
{
    let journals = match read_journals(alloc, bytes) {
        Ok(journals) => journals,
        Err(ReadFault::Bad { line, why }) => {
            let text = fault_at(alloc, line, why_word(why))?;
            let output = Output::JournalsFault;
            return Ok(Answer { output, text });
        }
        Err(ReadFault::Memory) => return Err(Memory {}),
    };
    match check(alloc, &journals)? {
        Verdict::Legal => {
            let text = Vec::from_slice(alloc, b"legal\n")?;
            let output = Output::Legal;
            Ok(Answer { output, text })
        }
        Verdict::First {
            journal,
            entry,
            expected,
        } => {
            let name = journals.at(journal as usize).name.as_slice();
            let text = illegal_at(alloc, name, entry, &expected)?;
            let output = Output::Illegal;
            Ok(Answer { output, text })
        }
    }
}
