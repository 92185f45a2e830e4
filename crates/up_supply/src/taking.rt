//! Packets.
ghost use Rattle.std.specs.Prelude.{◌≡◌, [], IfOk, IfErr, OnOk, OnErr, Some, None, slice_get};
ghost use Rattle.up_model.specs.declared.entry.Call.TheVariants.{Packet as PacketCall};
ghost use Rattle.up_model.specs.declared.entry.Reply.TheVariants.{Packet as PacketReply};
ghost use Rattle.up_model.specs.Packets as packets;
ghost use Rattle.up_object.specs.Change.{AllOwn};
ghost use Rattle.up_object.specs.Whole.{after};
ghost use Rattle.up_object.specs.Answered.{RepliesAsDue, FramesBalance};
ghost use Rattle.up_object.specs.OneCall.{DoesCall};

use core::mem::replace_with;
use std::alloc::Global;
use up_bank::FrameKind;
use up_model::{Call, Entry, Reply};
use up_num::Packet;
use up_object::changing::open;
use up_object::{By, Object, Step, Stepped, note_with};
use up_pages::Frames;

/// Takes the next packet. It answers `Empty` where all packets that were sent are taken, and `Finished` once that is so of
/// the last one, `Complete`.
pub fn packet(object: &mut Object, alloc: Global, who: u32, epoch: u64) -> Step
    ensures reply { RepliesAsDue object.old who epoch PacketCall result }
    ensures object { OnOk result (object.new ≡ after object.old who epoch PacketCall) }
    ensures frames { FramesBalance object.old object.new [] result }
    ensures own { IfOk result (λ step. AllOwn object.old.banks step.back.items) }
    ensures same { OnErr result (object.new ≡ object.old) }
    ensures back { IfErr result (λ failed. failed.1.items ≡ []) }
{
    let by = By { who, epoch };
    replace_with(object, Taking { alloc, by }, take_packet)
}

#[derive(Clone, Copy)]
struct Taking {
    alloc: Global,
    by: By,
}

impl Taking {
    fn entry(&self, reply: Reply) -> Entry
        ensures { result ≡ record { who = self.now.by.who; epoch = self.now.by.epoch; call = PacketCall; reply = reply } }
    {
        self.by.entry(Call::Packet, reply)
    }
}

fn take_packet(object: Object, taking: Taking) -> (Object, Step)
    ensures { DoesCall object result.0 result.1 taking.by.who taking.by.epoch PacketCall [] }
{
    match object.next_packet() {
        None => give_none(object, taking),
        Some(packet) => give_packet(object, taking, packet),
    }
}

fn give_none(object: Object, taking: Taking) -> (Object, Step)
    requires none { slice_get (packets.sent object.birth object.journal) (packets.taken object.journal) ≡ None }
    ensures { DoesCall object result.0 result.1 taking.by.who taking.by.epoch PacketCall [] }
{
    let alloc = taking.alloc;
    let kind = FrameKind::Ordinary;
    let frames = Frames::new(alloc);
    if object.detached() {
        let entry = taking.entry(Reply::Finished);
        note_with(object, alloc, entry, Reply::Finished, kind, frames)
    } else {
        let entry = taking.entry(Reply::Empty);
        note_with(object, alloc, entry, Reply::Empty, kind, frames)
    }
}

fn packet_reply(packet: &Packet) -> Reply
    ensures { result ≡ PacketReply packet.now }
{
    Reply::Packet(*packet)
}

fn give_packet(object: Object, taking: Taking, packet: Packet) -> (Object, Step)
    requires next { slice_get (packets.sent object.birth object.journal) (packets.taken object.journal) ≡ Some packet }
    ensures { DoesCall object result.0 result.1 taking.by.who taking.by.epoch PacketCall [] }
{
    let alloc = taking.alloc;
    let entry = taking.entry(packet_reply(&packet));
    match open(
        object,
        alloc,
        entry,
        FrameKind::Ordinary,
        Frames::new(alloc),
        0,
        0,
    ) {
        Ok(mut changing) => {
            changing.take_packet();
            let (object, back) = changing.close(0, 0);
            let reply = packet_reply(&packet);
            (object, Ok(Stepped { reply, back }))
        }
        Err((memory, object, frames)) => (object, Err((memory, frames))),
    }
}
