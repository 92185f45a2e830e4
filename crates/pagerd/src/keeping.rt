ghost use Rattle.std.specs.Prelude.{◌≡◌};

use up_outside::{Failed, Sink};

/// How many bytes are kept: as many as the text of any fault has.
const ROOM: usize = 32;

/// The first bytes of some, as many as there is room for.
#[derive(Drop)]
struct Front {
    bytes: [u8; ROOM],
    count: usize,
}

impl Front {
    fn push(&mut self, byte: u8) {
        if self.count < ROOM {
            self.bytes[self.count] = byte;
            self.count += 1;
        }
    }
}

/// A sink that hands all bytes on to another one, and keeps the first ones that were taken, so that `main` can say in a sentence what
/// the program wrote in two words.
#[derive(Drop)]
pub struct KeepingSink<K: Sink> {
    sink: K,
    front: Front,
}

impl<K: Sink> KeepingSink<K> {
    pub fn new(sink: K) -> Self
        ensures { result.sink ≡ sink }
    {
        KeepingSink {
            sink,
            front: Front {
                bytes: [0; ROOM],
                count: 0,
            },
        }
    }

    /// The first bytes that were taken.
    pub fn kept(&self) -> &[u8] {
        &self.front.bytes[..self.front.count.min(ROOM)]
    }
}

impl<K: Sink> Sink for KeepingSink<K> {
    ghost written = { λ keeping. K.written keeping.sink };

    ghost faults = { λ keeping. K.faults keeping.sink };

    fn push(&mut self, bytes: &[u8]) -> Result<usize, Failed> {
        let count = self.sink.push(bytes)?;
        keep(&mut self.front, &bytes[..count]);
        Ok(count)
    }
}

fn keep(front: &mut Front, bytes: &[u8]) {
    for byte in bytes {
        front.push(*byte);
    }
}
