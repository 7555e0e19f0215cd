//! An item of what GDB sends, and what is written for it.

ghost use Rattle.std.specs.Prelude.{◌≡◌, ◌≢◌, ◌++◌, ℕ, List, [], true, IfErr, IfOk, IfSome, OnOk, Option};
ghost use Rattle.gdb_packets.specs.Framing.{framed};
ghost use Rattle.gdb_packets.specs.Commands.{command_at};
ghost use Rattle.gdb_answers.specs.Answers.{answer_text};
ghost use Rattle.gdb_answers.specs.Responding.{IsAnswer, IsResponse, LosesItem, MakesWay, ServesItem, is_written_for, item_sets};
ghost use Rattle.gdb_answers.specs.Starting.{has_reply};
ghost use Rattle.gdb_answers.specs.Asking.{ArePointsSet, IsCarriedOut, asked, payload_asked, payload_points, points_asked, reply};
ghost use Rattle.gdb_answers.specs.Written.{Extends, HasPacket, acknowledgement};
ghost use Rattle.gdb_tape.specs.Tape.{KeepsTape};

use crate::answering::answer;
use crate::response::{Response, new_response, push_none, push_packets, push_sign};
use crate::session::GdbSession;
use crate::starting::has_reply;
use evm_room::NoMemory;
use evm_streams::{ReadFault, Sink, WriteFault, write_all};
use gdb_packets::{Command, PacketItem, read_command};
use gdb_tape::{Interrupts, has_going, processor_of, stop_all};
use std::alloc::Global;

/// How a session ended.
#[derive(Clone, Copy, Debug, PartialEq, Eq)]
pub enum Ended {
    /// GDB left, or its stream ended.
    Left,
    /// The session is to be saved, and goes on then.
    Saves,
    /// The machine is to boot anew, with the image as it is now, and the session goes on then.
    Boots,
    /// An allocation failed.
    NoMemory,
    /// A read failed.
    ReadFailed(ReadFault),
    /// A write failed.
    WriteFailed(WriteFault),
}

/// What a session is served with.
#[derive(Drop)]
pub(crate) struct Server<'a, I: Interrupts> {
    /// Where memory comes from.
    pub(crate) alloc: Global,
    /// Whether a stop of what goes on is asked for.
    pub(crate) interrupts: &'a I,
}

/// A packet and its answer.
#[derive(Drop)]
pub(crate) struct Exchange {
    /// The payload of the packet that was read last.
    pub(crate) payload: Vec<u8>,
    /// The answer to it.
    pub(crate) response: Response,
}

/// An exchange with nothing in it.
pub(crate) fn new_exchange(alloc: Global) -> Exchange
    ensures { result.response.out.items ≡ [] }
{
    Exchange {
        payload: Vec::new(alloc),
        response: new_response(alloc),
    }
}

// Does a command, and appends the packets of its answer.
#[tactic(auto, using(crate::proofs::Extending::replies_by))]
fn answer_command<I: Interrupts>(
    server: &Server<'_, I>,
    session: &mut GdbSession,
    command: Command,
    behind: &[u8],
    response: &mut Response,
) -> Result<(), NoMemory>
    ensures points { OnOk result (IfSome (points_asked session.old.tape.machine session.old.points command) (λ outcome. ArePointsSet reply outcome session.old.points session.new.points response.old.out.items response.new.out.items)) }
    ensures done { OnOk result (IfSome (asked session.old.looked behind.now session.old.tape.machine command) (λ events. IsCarriedOut reply events session.old.tape.machine session.new.tape.machine response.old.out.items response.new.out.items)) }
    ensures kept { KeepsTape session.old.tape session.new.tape }
    ensures extends { OnOk result (Extends response.old.out.items response.new.out.items) }
    ensures replies { has_reply session.old.extended command ≡ true → OnOk result (HasPacket response.old.out.items response.new.out.items) }
    ensures said { (text : List ℕ) → answer_text session.old.looked session.old.halt session.old.tape.machine command ≡ Option.Some text → OnOk result (response.new.out.items ≡ response.old.out.items ++ framed text) }
    ensures unchanged { (text : List ℕ) → answer_text session.old.looked session.old.halt session.old.tape.machine command ≡ Option.Some text → session.new ≡ session.old }
{
    response.reply.told.clear();
    response.reply.payload.clear();
    let silent = !has_reply(session.extended, command);
    answer(server, session, command, behind, &mut response.reply)?;
    push_packets(response, silent)
}

// Answers a payload.
#[tactic(auto, using(gdb_tape::proofs::Keeping::keeps_same, crate::proofs::Extending::extends_by))]
fn answer_payload<I: Interrupts>(
    server: &Server<'_, I>,
    session: &mut GdbSession,
    payload: &[u8],
    response: &mut Response,
) -> Result<(), NoMemory>
    ensures points { OnOk result (IfSome (payload_points payload.now session.old.tape.machine session.old.points) (λ outcome. ArePointsSet reply outcome session.old.points session.new.points response.old.out.items response.new.out.items)) }
    ensures done { OnOk result (IfSome (payload_asked session.old.looked payload.now session.old.tape.machine) (λ events. IsCarriedOut reply events session.old.tape.machine session.new.tape.machine response.old.out.items response.new.out.items)) }
    ensures kept { KeepsTape session.old.tape session.new.tape }
    ensures extends { OnOk result (Extends response.old.out.items response.new.out.items) }
    ensures unknown { command_at payload.now ≡ Option.None → session.new ≡ session.old }
    ensures empty { command_at payload.now ≡ Option.None → OnOk result (response.new.out.items ≡ response.old.out.items ++ framed []) }
    ensures answer { OnOk result (IsAnswer session.old session.new payload.now response.old.out.items response.new.out.items) }
{
    match read_command(payload) {
        Some((command, behind)) => answer_command(server, session, command, behind, response),
        None => push_none(&mut response.out),
    }
}

// Makes what is to be written for an item: its acknowledgement, and the packets of the answer to a payload.
#[tactic(auto, using(gdb_tape::proofs::Keeping::keeps_same, crate::proofs::Extending::extends_none))]
fn hear<I: Interrupts>(
    server: &Server<'_, I>,
    session: &mut GdbSession,
    item: PacketItem,
    payload: &[u8],
    response: &mut Response,
) -> Result<(), NoMemory>
    ensures points { item ≡ PacketItem.Packet → OnOk result (IfSome (payload_points payload.now session.old.tape.machine session.old.points) (λ outcome. ArePointsSet reply outcome session.old.points session.new.points (acknowledgement session.old.acknowledges item) response.new.out.items)) }
    ensures done { item ≡ PacketItem.Packet → OnOk result (IfSome (payload_asked session.old.looked payload.now session.old.tape.machine) (λ events. IsCarriedOut reply events session.old.tape.machine session.new.tape.machine (acknowledgement session.old.acknowledges item) response.new.out.items)) }
    ensures kept { KeepsTape session.old.tape session.new.tape }
    ensures acknowledged { OnOk result (Extends (acknowledgement session.old.acknowledges item) response.new.out.items) }
    ensures others { item ≢ PacketItem.Packet → session.new ≡ session.old }
    ensures sign { item ≢ PacketItem.Packet → OnOk result (response.new.out.items ≡ acknowledgement session.old.acknowledges item) }
    ensures unknown { item ≡ PacketItem.Packet → command_at payload.now ≡ Option.None → session.new ≡ session.old }
    ensures empty { item ≡ PacketItem.Packet → command_at payload.now ≡ Option.None → OnOk result (response.new.out.items ≡ acknowledgement session.old.acknowledges item ++ framed []) }
    ensures answer { item ≡ PacketItem.Packet → OnOk result (IsAnswer session.old session.new payload.now (acknowledgement session.old.acknowledges item) response.new.out.items) }
{
    response.out.clear();
    push_sign(session.acknowledges, item, &mut response.out)?;
    match item {
        PacketItem::Packet => answer_payload(server, session, payload, response),
        _ => Ok(()),
    }
}

// Whether something is written for an item. For - it is what was written last.
fn is_answered(item: PacketItem) -> bool
    ensures { result ≡ is_written_for item }
{
    matches!(
        item,
        PacketItem::Packet | PacketItem::Damaged | PacketItem::NotAcknowledged
    )
}

// Makes what is written for an item; what was written last stays where nothing new is.
#[tactic(auto, using(gdb_tape::proofs::Keeping::keeps_same))]
fn prepare<I: Interrupts>(
    server: &Server<'_, I>,
    session: &mut GdbSession,
    item: PacketItem,
    payload: &[u8],
    response: &mut Response,
) -> Result<(), NoMemory>
    ensures points { item ≡ PacketItem.Packet → OnOk result (IfSome (payload_points payload.now session.old.tape.machine session.old.points) (λ outcome. ArePointsSet reply outcome session.old.points session.new.points (acknowledgement session.old.acknowledges item) response.new.out.items)) }
    ensures done { item ≡ PacketItem.Packet → OnOk result (IfSome (payload_asked session.old.looked payload.now session.old.tape.machine) (λ events. IsCarriedOut reply events session.old.tape.machine session.new.tape.machine (acknowledgement session.old.acknowledges item) response.new.out.items)) }
    ensures kept { KeepsTape session.old.tape session.new.tape }
    ensures response { OnOk result (IsResponse item payload.now session.old session.new response.old.out.items response.new.out.items) }
{
    match item {
        PacketItem::Packet | PacketItem::Damaged => {
            hear(server, session, item, payload, response)
        }
        _ => Ok(()),
    }
}

// Whether an item asks for other registers.
fn writes_registers(item: PacketItem, payload: &[u8]) -> bool
    ensures { result ≡ item_sets item payload.now }
{
    if item != PacketItem::Packet {
        return false;
    }
    match read_command(payload) {
        Some((Command::SetRegisters, _)) | Some((Command::SetRegister(_), _)) => true,
        _ => false,
    }
}

// Stops the processors where registers are to be written that can be: at an earlier place they may go.
#[tactic(auto, using(gdb_tape::proofs::Keeping::keeps_same, gdb_tape::proofs::Keeping::keeps_changed))]
fn make_way(session: &mut GdbSession, item: PacketItem, payload: &[u8])
    ensures kept { KeepsTape session.old.tape session.new.tape }
    ensures way { MakesWay (item_sets item payload.now) session.old session.new }
{
    let can = processor_of(&session.tape.machine, session.looked).is_ok();
    if can && writes_registers(item, payload) && has_going(&session.tape.machine) {
        session.forget();
        let _ = stop_all(&mut session.tape.machine);
    }
}

/// Answers an item.
#[tactic(auto, using(gdb_tape::proofs::Keeping::keeps_same, gdb_tape::proofs::Keeping::keeps_more))]
pub(crate) fn serve_item<W: Sink, I: Interrupts>(
    server: &Server<'_, I>,
    session: &mut GdbSession,
    item: PacketItem,
    exchange: &mut Exchange,
    sink: &mut W,
) -> Result<(), Ended>
    ensures kept { KeepsTape session.old.tape session.new.tape }
    ensures ok { IfOk result (λ _. ServesItem W.takes item exchange.old.payload.items session.old session.new exchange.old.response.out.items exchange.new.response.out.items sink.old sink.new) }
    ensures err { IfErr result (λ end. LosesItem W.takes item exchange.old.payload.items session.old session.new exchange.old.response.out.items sink.old sink.new end) }
{
    let payload = exchange.payload.as_slice();
    make_way(session, item, payload);
    match prepare(server, session, item, payload, &mut exchange.response) {
        Ok(()) => {}
        Err(NoMemory) => return Err(Ended::NoMemory),
    }
    if !is_answered(item) {
        return Ok(());
    }
    match write_all(sink, exchange.response.out.as_slice()) {
        Ok(()) => Ok(()),
        Err(fault) => Err(Ended::WriteFailed(fault)),
    }
}
