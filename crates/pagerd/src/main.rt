//! The program `pagerd`: it reads a script from standard input, does it on one thread, and writes the journals of
//! its objects to standard output; or it reads journals and tells whether they are legal; or it does a script that
//! it makes of a number.
#![tactic(auto)]

ghost use Rattle.std.specs.Prelude.{[], ◌∷◌, Contains};
ghost use Rattle.std.specs.Process.{exit_status};

mod advice;
mod built;
mod checking;
mod command;
mod explaining;
mod generated;
mod journals;
mod keeping;
mod output;
mod playing;
mod process;
mod stepping;
#[cfg(test)]
mod tests;
mod text;
mod top;

use keeping::KeepingSink;
use process::program;
use std::alloc::{AllocError, Global};
use std::env;
use std::io::{self, ErrorKind};
use std::process::ExitCode;
use up_outside::{ReaderSource, WriterSink};

fn main(rt: HostRuntime) -> ExitCode {
    run(&rt)
}

/// Makes the program's outsides: its words, standard input and standard output. What the program does with them
/// is `program`'s to say, since these tell nothing of themselves.
fn run(rt: &HostRuntime) -> ExitCode
    ensures listed { Contains (0 ∷ 1 ∷ 2 ∷ 3 ∷ 4 ∷ 5 ∷ 7 ∷ []) (exit_status result) }
{
    let words = words(rt.alloc(), rt);
    let mut source = ReaderSource::new(rt.reader());
    let mut sink = KeepingSink::new(WriterSink::new(io::writer(rt)));
    program(rt, rt.alloc(), words, &mut source, &mut sink)
}

/// The words after the program's name. Where one isn't text there are none, which no command has.
fn words(alloc: Global, rt: &HostRuntime) -> Result<Vec<String>, AllocError> {
    let mut words = Vec::new(alloc);
    match env::args(rt) {
        Ok(args) => {
            for word in args.skip(1) {
                words.push(word)?;
            }
            Ok(words)
        }
        Err(error) => {
            if error.kind() == ErrorKind::OutOfMemory {
                return Err(AllocError {});
            }
            Ok(words)
        }
    }
}
