ghost use Rattle.std.specs.Prelude.{◌≡◌, ◌≤◌, true, IfOk, OnOk};
ghost use Rattle.up_words.specs.ReadSteps.{Gives, GivesText, lines_from};
ghost use Rattle.up_words.specs.Words.{split};
ghost use Rattle.up_script.specs.Reading.{declaring, section_step, is_skipped, content, line_step, ended, last_step, script_of};
ghost use Rattle.up_script.specs.Fit.{Fits};
ghost use Rattle.up_script.specs.Sound.{is_sound};
ghost use Rattle.up_script.specs.Sections.{is_sound_section};

use crate::actions::read_action;
use crate::declarations::{Declared, read_declaration};
use crate::played::Played;
use crate::script::Script;
use crate::versions::read_version;
use std::alloc::Global;
use up_words::{ReadFault, Stop, Why, Words, front, read_words};

/// The greatest length of a text.
const TEXT: usize = 4_194_304;
/// The greatest length of a line, its newline not counted.
const LINE: usize = 4096;
/// The greatest number of lines.
const LINES: u32 = 65_536;

/// What the next line has to be, and what the lines before it said.
#[derive(Debug, Drop)]
pub enum Section {
    Header,
    Declaring(Declared),
    Acting(Declared, Played),
}

fn read_declaring(
    alloc: Global,
    number: u32,
    declared: Declared,
    words: &Words<'_>,
) -> Result<Section, Stop>
    ensures value { Gives (λ next. next) result (declaring number declared words.now) }
    ensures sound { IfOk result (λ next. is_sound_section next ≡ true) }
{
    if !words.has(0, b"steps", 1) {
        let declared = read_declaration(alloc, number, declared, words)?;
        return Ok(Section::Declaring(declared));
    }
    let declared = declared.counted(alloc)?;
    if !declared.is_whole() {
        return Err(Stop::Found(Why::Missing));
    }
    Ok(Section::Acting(declared, Played::new(alloc)))
}

fn read_by_section(
    alloc: Global,
    number: u32,
    section: Section,
    words: &Words<'_>,
) -> Result<Section, Stop>
    ensures value { Gives (λ next. next) result (section_step number section words.now) }
    ensures sound { is_sound_section section ≡ true → IfOk result (λ next. is_sound_section next ≡ true) }
{
    match section {
        Section::Header => Err(Stop::Found(Why::Header)),
        Section::Declaring(declared) => read_declaring(alloc, number, declared, words),
        Section::Acting(declared, played) => {
            let played = read_action(alloc, &declared, number, played, words)?;
            Ok(Section::Acting(declared, played))
        }
    }
}

fn is_passed_over(line: &[u8]) -> bool
    ensures { result ≡ is_skipped line.now }
{
    match line {
        [] => true,
        [first, ..] => *first == b'#',
    }
}

fn read_content(alloc: Global, number: u32, section: Section, line: &[u8]) -> Result<Section, Stop>
    ensures value { Gives (λ next. next) result (content number section line.now) }
    ensures sound { is_sound_section section ≡ true → IfOk result (λ next. is_sound_section next ≡ true) }
{
    if let Section::Header = section {
        return match read_version(line) {
            None => Err(Stop::Found(Why::Header)),
            Some(version) => Ok(Section::Declaring(Declared::new(alloc, version))),
        };
    }
    if is_passed_over(line) {
        return Ok(section);
    }
    let words = read_words(alloc, line)?;
    read_by_section(alloc, number, section, &words)
}

fn read_line(alloc: Global, number: u32, section: Section, line: &[u8]) -> Result<Section, Stop>
    ensures value { Gives (λ next. next) result (line_step number section line.now) }
    ensures sound { is_sound_section section ≡ true → IfOk result (λ next. is_sound_section next ≡ true) }
    ensures few { OnOk result (number ≤ LINES) }
{
    if LINE < line.len() {
        return Err(Stop::Found(Why::Long));
    }
    if LINES < number {
        return Err(Stop::Found(Why::Limit));
    }
    read_content(alloc, number, section, line)
}

fn finish(section: Section) -> Result<Script, Stop>
    ensures value { Gives (λ script. script) result (ended section) }
    ensures sound { is_sound_section section ≡ true → IfOk result (λ script. is_sound script ≡ true) }
{
    match section {
        Section::Header => Err(Stop::Found(Why::Header)),
        Section::Declaring(_) => Err(Stop::Found(Why::Missing)),
        Section::Acting(declared, played) => {
            let Declared {
                version,
                last: _,
                stock,
                objects,
                actors,
            } = declared;
            Ok(Script {
                version,
                frames: stock.frames,
                frames_line: stock.frames_line,
                loan: stock.loan,
                loan_line: stock.loan_line,
                warn: stock.warn,
                critical: stock.critical,
                objects: objects.into_lines(),
                actors: actors.into_lines(),
                lines: played.lines,
            })
        }
    }
}

/// What stands behind the last newline.
fn end(number: u32, section: Section, rest: &[u8]) -> Result<Script, Stop>
    ensures value { Gives (λ script. script) result (last_step number section rest.now) }
    ensures sound { is_sound_section section ≡ true → IfOk result (λ script. is_sound script ≡ true) }
{
    if rest.is_empty() {
        return finish(section);
    }
    if LINE < rest.len() {
        return Err(Stop::Found(Why::Long));
    }
    if LINES < number {
        return Err(Stop::Found(Why::Limit));
    }
    Err(Stop::Found(Why::Cut))
}

fn read_lines(alloc: Global, text: &[u8]) -> Result<Script, ReadFault>
    ensures value { GivesText (λ script. script) result (lines_from line_step last_step 1 Section.Header (split 10 text.now)) }
    ensures sound { IfOk result (λ script. is_sound script ≡ true) }
{
    let mut section = Section::Header;
    let mut number: u32 = 1;
    let mut rest = text;
    loop {
        let (line, after) = front(rest);
        match after {
            None => {
                return match end(number, section, line) {
                    Ok(script) => Ok(script),
                    Err(stop) => Err(stop.at(number)),
                };
            }
            Some(after) => {
                section = match read_line(alloc, number, section, line) {
                    Ok(next) => next,
                    Err(stop) => return Err(stop.at(number)),
                };
                number += 1;
                rest = after;
            }
        }
    }
}

/// The script that a text spells.
///
/// A text that spells none is `Bad`, with the first faulty line and, in it, the first reason in the order of `Why`. Line 0
/// stands for the whole text, where it is longer than 4,194,304 bytes. Each byte of the text is looked at a fixed number
/// of times; memory is taken for one line's words at a time, and for the script.
pub fn read_script(alloc: Global, bytes: &[u8]) -> Result<Script, ReadFault>
    ensures exact { GivesText (λ script. script) result (script_of bytes.now) }
    ensures sound { IfOk result (λ script. is_sound script ≡ true) }
    ensures fits { IfOk result (λ script. Fits script) }
{
    read_text(alloc, bytes)
}

fn read_text(alloc: Global, bytes: &[u8]) -> Result<Script, ReadFault>
    ensures exact { GivesText (λ script. script) result (script_of bytes.now) }
    ensures sound { IfOk result (λ script. is_sound script ≡ true) }
{
    if TEXT < bytes.len() {
        return Err(ReadFault::Bad {
            line: 0,
            why: Why::Long,
        });
    }
    read_lines(alloc, bytes)
}
