ghost use Rattle.std.specs.Prelude.{◌≡◌, ◌++◌, [], ◌∷◌, true, None, IfOk};
ghost use Rattle.up_script.specs.Fit.{Fits};
ghost use Rattle.up_script.specs.Sound.{is_sound};
ghost use Rattle.up_text.specs.Versions.{is_version};
ghost use Rattle.pagerd.specs.Built.{unbuilt_line};
ghost use Rattle.pagerd.specs.Journals.{MakesJournals, named_from, name_one};

use crate::playing::play_script;
use std::alloc::Global;
use up_model::Entries;
use up_num::Memory;
use up_script::{ObjectLine, Script};
use up_text::{Journals, Named};

/// Does a script's lines in file order, each as far as its actor comes, and gives the journals of its objects in their
/// order, in the script's version.
pub fn journals_of(alloc: Global, script: &Script) -> Result<Journals, Memory>
    requires sound { is_sound script.now ≡ true }
    requires fits { Fits script.now }
    requires built { unbuilt_line script.now ≡ None }
    ensures { IfOk result (λ journals. MakesJournals script.now journals) }
{
    let ended = play_script(alloc, script)?;
    name_all(alloc, script.version, script.objects.as_slice(), ended)
}

/// Gives each journal its object's name and birth.
fn name_all(
    alloc: Global,
    version: u32,
    objects: &[ObjectLine],
    ended: Vec<Entries>,
) -> Result<Journals, Memory>
    requires { is_version version ≡ true }
    ensures { IfOk result (λ journals. journals ≡ record { version = version; list = named_from objects.now ended.items }) }
{
    let mut journals = Journals::new(alloc, version);
    for entries in ended {
        let at = journals.len();
        if at < objects.len() {
            journals = add_named(alloc, journals, &objects[at], entries)?;
        }
    }
    Ok(journals)
}

fn add_named(
    alloc: Global,
    journals: Journals,
    object: &ObjectLine,
    entries: Entries,
) -> Result<Journals, Memory>
    ensures { IfOk result (λ more. more ≡ record journals { list = journals.list ++ name_one object.now entries ∷ [] }) }
{
    let name = object.name.copy(alloc)?;
    let mut more = journals;
    let journal = Named {
        name,
        birth: object.birth,
        entries,
    };
    match more.push(journal) {
        Ok(()) => Ok(more),
        Err(_) => Err(Memory {}),
    }
}
