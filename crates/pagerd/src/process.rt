ghost use Rattle.std.specs.Prelude.{◌≡◌, IfOk, OnErr};
ghost use Rattle.std.specs.Process.{exit_status};
ghost use Rattle.pagerd.specs.Outsides.{call};
ghost use Rattle.pagerd.specs.Top.{Did};

use crate::explaining::explain;
use crate::keeping::KeepingSink;
use crate::top::alone;
use std::alloc::{AllocError, Global};
use std::io::Eprint;
use std::process::ExitCode;
use up_outside::{Sink, Source};

/// The whole program over its outsides: it ends with the status of the top call, and says on standard error
/// what that means. The words are those after its name, where there was memory for them.
pub fn program<R: Eprint, S: Source, K: Sink>(
    rt: &R,
    alloc: Global,
    words: Result<Vec<String>, AllocError>,
    source: &mut S,
    sink: &mut KeepingSink<K>,
) -> ExitCode
    ensures did { IfOk words (λ words.
        Did (call S.Source ⟦<KeepingSink<K> as Sink>⟧ words.items source.old source.new sink.old sink.new)
        (exit_status result)) }
    ensures no_words { OnErr words
        ((exit_status result ≡ 7) × (source.new ≡ source.old) × (sink.new ≡ sink.old)) }
{
    match words {
        Ok(words) => {
            let status = alone(alloc, words.as_slice(), source, sink);
            end(rt, alloc, status, sink.kept())
        }
        Err(AllocError {}) => end(rt, alloc, 7, sink.kept()),
    }
}

fn end<R: Eprint>(rt: &R, alloc: Global, status: u8, told: &[u8]) -> ExitCode
    ensures { exit_status result ≡ status }
{
    let _ = explain(rt, alloc, status, told);
    ExitCode::from(status)
}
