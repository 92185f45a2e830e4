ghost use Rattle.std.specs.Prelude.{ℕ, List, IfOk};
ghost use Rattle.pagerd.specs.Commands.{Asks};
ghost use Rattle.pagerd.specs.Outputs.{Answers, OfScript};
ghost use Rattle.pagerd.specs.Outsides.{input_of};

use crate::built::find_unbuilt;
use crate::command::Command;
use crate::journals::journals_of;
use crate::output::{Answer, Output, Stop};
use crate::text::{fault_at, why_word};
use std::alloc::Global;
use up_num::Memory;
use up_outside::{ReadStop, Source, read_to};
use up_script::{ReadFault, read_script};
use up_text::write_journals;

/// The greatest length of a script's text.
const TEXT: usize = 4_194_304;

/// Reads a script, does it, and gives what is to be told.
pub fn step<S: Source>(alloc: Global, source: &mut S) -> Result<Answer, Stop>
    ensures { (words : List (List ℕ)) → Asks words Command.Step
        → Answers (input_of S.Source words source.old source.new) result }
{
    let bytes = match read_to(alloc, source, TEXT) {
        Ok(bytes) => bytes,
        Err(ReadStop::Source) => return Err(Stop::Source),
        Err(ReadStop::Memory) => return Err(Stop::Memory),
    };
    match answer_to(alloc, bytes.as_slice()) {
        Ok(answer) => Ok(answer),
        Err(_) => Err(Stop::Memory),
    }
}

/// What is to be told of a script's text.
fn answer_to(alloc: Global, bytes: &[u8]) -> Result<Answer, Memory>
    ensures { IfOk result (λ answer. OfScript answer.output bytes.now answer.text.items) }
{
    let script = match read_script(alloc, bytes) {
        Ok(script) => script,
        Err(ReadFault::Bad { line, why }) => {
            let text = fault_at(alloc, line, why_word(why))?;
            let output = Output::ScriptFault;
            return Ok(Answer { output, text });
        }
        Err(ReadFault::Memory) => return Err(Memory {}),
    };
    if let Some(line) = find_unbuilt(&script) {
        let text = fault_at(alloc, line, b"unbuilt")?;
        let output = Output::Unbuilt;
        return Ok(Answer { output, text });
    }
    let journals = journals_of(alloc, &script)?;
    let mut text = Vec::new(alloc);
    write_journals(&journals, &mut text)?;
    let output = Output::Journals;
    Ok(Answer { output, text })
}
