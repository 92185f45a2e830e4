//! What a script is read as, where the program doesn't do it yet, so that no output shows it.

use std::test::Fail;
use up_script::read_script;

/// A script of an object with an image and its worker.
const SCRIPT: &[u8] =
    b"pagerd-script 1\nframes 64\nobject s 2 4 trap s\nuser u s\nworker w s\nevictor e\nsteps\nu sync s\nw turn s 4096\nw leave s\n";

#[test]
fn an_image_and_its_worker_are_read(rt: HostRuntime) -> Result<(), Fail> {
    let alloc = rt.alloc();
    let script = read_script(alloc, SCRIPT).ok().ok_or("a script")?;
    let [object] = script.objects.as_slice() else {
        return Err("one object")?;
    };
    assert!(rt; object.birth.image);
    let printed = format!(in alloc; "{script:?}")?;
    assert!(rt; printed.contains("image: Some(Items { items: [115] })"));
    assert!(rt;
        printed.contains(
            "name: Items { items: [119] }, kind: Worker, objects: Items { items: [0] }"
        )
    );
    assert!(rt;
        printed.ends_with(
            "actor: 0, action: Sync { object: 0 } }, Line { number: 9, actor: 1, action: Turn { object: 0, steps: 4096 } }, Line { number: 10, actor: 1, action: Act { object: 0, call: Leave { role: Pager } } }] } }"
        )
    );
    Ok(())
}
