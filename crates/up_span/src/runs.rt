ghost use Rattle.std.specs.Prelude.{◌≡◌, [], ◌∷◌, ◌++◌, ◌<◌, length, slice_get, IfErr, MatchOption, OnOk, OnErr};

use crate::Memory;
use crate::run::Run;
use std::alloc::Global;
use std::marker::Model;

/// A list of runs.
#[derive(Debug, Drop)]
pub struct Runs {
    runs: Vec<Run>,
}

impl Model for Runs {
    ghost use Rattle.std.specs.Prelude.{List};
    ghost use Rattle.up_span.specs.declared.run.Run.{Run as RunValue};

    ghost Value = { List RunValue };

    ghost view = { λ seen. seen.runs.items };
}

impl Runs {
    /// The empty list. It takes no memory.
    pub fn new(alloc: Global) -> Self
        ensures { result ≡ [] }
    {
        Runs {
            runs: Vec::new(alloc),
        }
    }

    pub fn len(&self) -> usize
        ensures { result ≡ length self.now }
    {
        self.runs.len()
    }

    pub fn at(&self, place: usize) -> &Run
        requires { place < length self.now }
        ensures { slice_get self.now place ≡ Some result.now }
    {
        &self.runs[place]
    }

    /// Appends a run. After want of memory the run comes back.
    pub fn push(&mut self, run: Run) -> Result<(), (Memory, Run)>
        ensures ok { OnOk result (self.new ≡ self.old ++ run ∷ []) }
        ensures same { OnErr result (self.new ≡ self.old) }
        ensures back { IfErr result (λ failed. failed.1 ≡ run) }
    {
        match self.runs.push(run) {
            Ok(()) => Ok(()),
            Err(failed) => Err((Memory {}, failed.value)),
        }
    }

    /// Takes the last run off.
    pub fn pop(&mut self) -> Option<Run>
        ensures { MatchOption result ((self.old ≡ []) × (self.new ≡ [])) (λ last. self.old ≡ self.new ++ last ∷ []) }
    {
        self.runs.pop()
    }

    pub fn as_slice(&self) -> &[Run]
        ensures { result.now ≡ self.now }
    {
        self.runs.as_slice()
    }
}
