//! The server: bytes in, packets out.

ghost use Rattle.std.specs.Prelude.{◌≡◌, ◌++◌, ℕ, List, [], false, length, IfErr, IfOk, MatchOption};
ghost use Rattle.gdb_packets.specs.Items.{Item};
ghost use Rattle.gdb_answers.specs.Turns.{Answers, AnswersAll, Breaks, BreaksOff, ReadsOn, Rests, Served};
ghost use Rattle.gdb_tape.specs.Tape.{KeepsTape};

use crate::serving::{Ended, Exchange, Server, new_exchange, serve_item};
use crate::session::{Booting, GdbSession};
use crate::starting::{pause_of, waits_for_boot};
use evm_streams::{ReadFault, Reading, Sink, Source};
use gdb_packets::read_item;
use gdb_tape::{Interrupts, push_bytes};
use std::alloc::Global;

/// What GDB has sent that is not answered yet, and what was written for it last. It outlasts the pauses of a session.
#[derive(Drop)]
pub struct Dialogue {
    heard: Vec<u8>,
    exchange: Exchange,
}

impl Dialogue {
    /// Nothing is heard yet.
    pub fn new(alloc: Global) -> Dialogue
        ensures heard { result.heard.items ≡ [] }
        ensures last { result.exchange.response.out.items ≡ [] }
    {
        Dialogue {
            heard: Vec::new(alloc),
            exchange: new_exchange(alloc),
        }
    }
}

// Answers the next item in some bytes, and returns the bytes behind it. None where no item is whole, or where the machine is to boot
// anew before it is answered.
#[tactic(auto, using(gdb_tape::proofs::Keeping::keeps_same))]
fn serve_next<'b, W: Sink, I: Interrupts>(
    server: &Server<'_, I>,
    session: &mut GdbSession,
    bytes: &'b [u8],
    exchange: &mut Exchange,
    sink: &mut W,
) -> Result<Option<&'b [u8]>, Ended>
    requires { session.old.over ≡ false }
    ensures kept { KeepsTape session.old.tape session.new.tape }
    ensures turn { IfOk result (λ found. MatchOption found
        (Rests (record { session = session.old; heard = bytes.now; last = exchange.old.response.out.items; sink = sink.old }) (record { session = session.new; heard = bytes.now; last = exchange.new.response.out.items; sink = sink.new }))
        (λ rest. (item : Item) × Answers W.takes item (record { session = session.old; heard = bytes.now; last = exchange.old.response.out.items; sink = sink.old }) (record { session = session.new; heard = rest.now; last = exchange.new.response.out.items; sink = sink.new }))) }
    ensures breaks { IfErr result (λ end. Breaks W.takes end (record { session = session.old; heard = bytes.now; last = exchange.old.response.out.items; sink = sink.old }) session.new sink.new) }
{
    match read_item(bytes, &mut exchange.payload) {
        Err(_) => Err(Ended::NoMemory),
        Ok(None) => Ok(None),
        Ok(Some((item, rest))) => {
            if waits_for_boot(session, item, exchange.payload.as_slice()) {
                session.booting = Booting::Asked;
                return Ok(None);
            }
            match serve_item(server, session, item, exchange, sink) {
                Ok(()) => {
                    session.booting = Booting::Idle;
                    Ok(Some(rest))
                }
                Err(ended) => Err(ended),
            }
        }
    }
}

// Answers the items that are whole in some bytes: how many bytes are left.
#[tactic(auto, using(gdb_tape::proofs::Keeping::keeps_same, gdb_tape::proofs::Keeping::keeps_more))]
fn serve_items<W: Sink, I: Interrupts>(
    server: &Server<'_, I>,
    session: &mut GdbSession,
    bytes: &[u8],
    exchange: &mut Exchange,
    sink: &mut W,
) -> Result<usize, Ended>
    ensures kept { KeepsTape session.old.tape session.new.tape }
    ensures all { IfOk result (λ left. AnswersAll W.takes left (record { session = session.old; heard = bytes.now; last = exchange.old.response.out.items; sink = sink.old }) session.new exchange.new.response.out.items sink.new) }
    ensures breaks { IfErr result (λ end. BreaksOff W.takes end (record { session = session.old; heard = bytes.now; last = exchange.old.response.out.items; sink = sink.old }) session.new sink.new) }
{
    let mut rest = bytes;
    'items: while !session.over {
        match serve_next(server, session, rest, exchange, sink) {
            Ok(Some(after)) => rest = after,
            Ok(None) => return Ok(rest.len()),
            Err(ended) => return Err(ended),
        }
    }
    Ok(rest.len())
}

// Reads some bytes behind those that are not answered; false at the end.
fn read_more<R: Source>(source: &mut R, heard: &mut Vec<u8>) -> Result<bool, Ended>
    ensures { ReadsOn R.gives result source.old heard.old.items source.new heard.new.items }
{
    let mut part = [0u8; 4_096];
    match source.read(&mut part) {
        Reading::Failed(cause) => Err(Ended::ReadFailed(ReadFault::Failed(cause))),
        Reading::Bytes(0) => Ok(false),
        Reading::Bytes(n) => match push_bytes(heard, &part[..n]) {
            Ok(()) => Ok(true),
            Err(_) => Err(Ended::NoMemory),
        },
    }
}

// Keeps the last bytes of a list alone.
fn keep_last(heard: &mut Vec<u8>, left: usize)
    ensures { (front rest : List ℕ) → heard.old.items ≡ front ++ rest → left ≡ length rest → heard.new.items ≡ rest }
{
    let len = heard.len();
    if left < len {
        heard.copy_within(len - left.., 0);
        heard.truncate(left);
    }
}

/// Serves a session: reads what GDB sends until it leaves, or asks that the session be saved or the machine boots anew, and writes the
/// answers. While the program goes on, the source says whether GDB asks that it be stopped.
#[tactic(auto, using(gdb_tape::proofs::Keeping::keeps_same, gdb_tape::proofs::Keeping::keeps_more))]
pub fn serve_gdb<R: Source + Interrupts, W: Sink>(
    alloc: Global,
    session: &mut GdbSession,
    dialogue: &mut Dialogue,
    source: &mut R,
    sink: &mut W,
) -> Ended
    ensures kept { KeepsTape session.old.tape session.new.tape }
    ensures served { Served R.gives W.takes result source.old (record { session = session.old; heard = dialogue.old.heard.items; last = dialogue.old.exchange.response.out.items; sink = sink.old }) source.new (record { session = session.new; heard = dialogue.new.heard.items; last = dialogue.new.exchange.response.out.items; sink = sink.new }) }
{
    'parts: for _part in 0..u64::MAX {
        let server = Server {
            alloc,
            interrupts: &*source,
        };
        let heard = dialogue.heard.as_slice();
        match serve_items(&server, session, heard, &mut dialogue.exchange, sink) {
            Ok(left) => keep_last(&mut dialogue.heard, left),
            Err(ended) => return ended,
        }
        if let Some(ended) = pause_of(session) {
            return ended;
        }
        match read_more(source, &mut dialogue.heard) {
            Ok(true) => {}
            Ok(false) => return Ended::Left,
            Err(ended) => return ended,
        }
    }
    Ended::Left
}
