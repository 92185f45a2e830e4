ghost use Rattle.std.specs.Prelude.{IfOk};
ghost use Rattle.up_stage.specs.Played.{AreJournalsOf, IsPlayable};

use std::alloc::Global;
use up_evictor::Levels;
use up_hands::Hands;
use up_model::Entries;
use up_num::Memory;
use up_script::Script;
use up_stage::{births_of, play};

/// Does a script's lines in file order, each as far as its actor comes, and gives the journals of its objects in their
/// order, oldest entry first.
pub fn play_script(alloc: Global, script: &Script) -> Result<Vec<Entries>, Memory>
    requires { IsPlayable script.now }
    ensures { IfOk result (λ journals. AreJournalsOf script.now journals.items) }
{
    let births = births_of(alloc, script.objects.as_slice())?;
    let levels = Levels {
        warn: script.warn,
        critical: script.critical,
    };
    let hands = Hands::new(
        alloc,
        births.as_slice(),
        script.frames,
        script.loan,
        levels,
        script.actors.len(),
    )?;
    let (hands, played) = play(alloc, script, hands);
    let ended = hands.end(alloc);
    played?;
    ended
}
