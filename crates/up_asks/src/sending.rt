//! The packets of an ask.
ghost use Rattle.std.specs.Prelude.{◌≡◌, ◌+◌, ◌<◌, ◌≤◌, ◌^◌, ◌++◌, length, vec_len};
ghost use Rattle.std.specs.Vec.{vec_capacity};
ghost use Rattle.up_num.specs.Asks as asks;
ghost use Rattle.up_asks.specs.Asking.{packets_for};
ghost use Rattle.up_asks.specs.Keeps.{AreRanges};

use up_num::{AskKind, Packet, PageRange};
use up_span::{Run, Runs};

/// The packet that asks for a run of pages.
fn packet_of(kind: AskKind, run: &Run) -> Packet
    requires some { 0 < run.now.count }
    requires below { run.now.first + run.now.count < 2 ^ 32 }
    ensures { result ≡ asks.packet_of kind run.now.first run.now.count }
{
    let range = PageRange {
        first: run.first,
        count: run.count,
    };
    match kind {
        AskKind::Read => Packet::Read(range),
        AskKind::Dirty => Packet::Dirty(range),
    }
}

/// Sends a packet for each run, for which there is room.
pub(crate) fn send(packets: &mut Vec<Packet>, kind: AskKind, parts: &Runs)
    requires ranges { AreRanges parts.now }
    requires room { vec_len packets.old + length parts.now ≤ vec_capacity packets.old }
    ensures items { packets.new.items ≡ packets.old.items ++ packets_for kind parts.now }
    ensures len { vec_len packets.new ≡ vec_len packets.old + length parts.now }
    ensures room { vec_capacity packets.new ≡ vec_capacity packets.old }
{
    for place in 0..parts.len() {
        packets.push_reserved(packet_of(kind, parts.at(place)));
    }
}
