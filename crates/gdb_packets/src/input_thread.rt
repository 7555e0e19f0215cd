//! The bytes that a thread hears, as a source.

ghost use Rattle.std.specs.Prelude.{◌≡◌, IfOk};
ghost use Rattle.gdb_packets.specs.Hearings.{ReadsNothing};

use crate::ends::{Hearing, HearingEnd};
use crate::heard::Heard;
use crate::interrupts::Interrupts;
use evm_room::NoMemory;
use std::alloc::Global;
use std::io::{self, Error, ErrorKind, Read};
use std::sync::{Arc, Condvar, Mutex, Wait};
use std::thread;
use std::thread::Threads;

/// What two threads share: the bytes that are heard, and what they wait for.
#[derive(Drop)]
struct Inbox {
    heard: Mutex<Heard>,
    changed: Condvar,
}

/// A source of the bytes that a thread hears. It asks for a stop as long as a byte 3 is heard and not read: the byte by
/// which GDB asks for one between packets.
#[derive(Drop)]
pub struct InputThread<R: Wait + Drop> {
    rt: R,
    inbox: Arc<Inbox, Global>,
}

// Leaves bytes in the inbox, once there is room; false if nothing more is to be heard.
fn leave<R: Wait>(rt: &R, inbox: &Inbox, part: &[u8]) -> bool {
    let mut heard = inbox
        .changed
        .wait_while(rt, inbox.heard.lock(rt), |heard| heard.is_full());
    heard.add(part);
    let goes_on = heard.end().is_none();
    drop(heard);
    inbox.changed.notify_all();
    goes_on
}

// Leaves in the inbox that nothing more comes.
fn close<R: Wait>(rt: &R, inbox: &Inbox, end: HearingEnd) {
    inbox.heard.lock(rt).close(end);
    inbox.changed.notify_all();
}

// What a read answers that has no bytes to give.
fn read_nothing(end: Option<HearingEnd>) -> io::Result<usize>
    ensures value { IfOk result (λ count. count ≡ 0) }
    ensures end { ReadsNothing end result }
{
    match end {
        Some(HearingEnd::ReadFailed(kind)) => Err(Error::from(kind)),
        Some(HearingEnd::NoMemory) => Err(Error::from(ErrorKind::OutOfMemory)),
        Some(HearingEnd::EndOfInput) | None => Ok(0),
    }
}

// Hears to the end.
fn listen<R: Wait, I: Read>(rt: &R, input: &mut I, inbox: &Inbox) {
    let mut part = [0u8; 4_096];
    for _ in rt.forever() {
        match input.read(&mut part) {
            Ok(0) => return close(rt, inbox, HearingEnd::EndOfInput),
            Ok(count) => {
                if !leave(rt, inbox, &part[..count]) {
                    return;
                }
            }
            Err(error) => return close(rt, inbox, HearingEnd::ReadFailed(error.kind())),
        }
    }
}

impl<R: Threads + Wait + Copy + Send + Drop + 'static> InputThread<R> {
    /// Starts the thread that hears an input. It ends at the end of the input, or with the program.
    ///
    /// # Errors
    ///
    /// Memory or a thread was refused.
    pub fn new<I: Read + Send + Drop + 'static>(
        rt: R,
        alloc: Global,
        input: I,
    ) -> Result<InputThread<R>, NoMemory> {
        let inbox = Inbox {
            heard: Mutex::new(Heard::new(alloc)),
            changed: Condvar::new(),
        };
        let Ok(inbox) = Arc::new(alloc, inbox) else {
            return Err(NoMemory);
        };
        let Ok(theirs) = Arc::try_clone(&inbox) else {
            return Err(NoMemory);
        };
        let mut input = input;
        match thread::spawn(&rt, move || listen(&rt, &mut input, &theirs)) {
            Ok(_handle) => Ok(InputThread { rt, inbox }),
            Err(_) => Err(NoMemory),
        }
    }
}

impl<R: Wait + Drop> Read for InputThread<R> {
    fn read(&mut self, buf: &mut [u8]) -> io::Result<usize> {
        let inbox = &*self.inbox;
        let mut heard = inbox.changed.wait_while(
            &self.rt,
            inbox.heard.lock(&self.rt),
            |heard| heard.is_awaited(),
        );
        let count = heard.give(buf);
        let end = heard.end();
        drop(heard);
        inbox.changed.notify_all();
        if count == 0 {
            return read_nothing(end);
        }
        Ok(count)
    }
}

impl<R: Wait + Drop> Interrupts for InputThread<R> {
    ghost use Rattle.gdb_packets.specs.Trusted.{Heard};

    ghost asks = { Heard };

    fn is_asked(&self) -> bool {
        self.inbox.heard.lock(&self.rt).has_interrupt()
    }
}

impl<R: Wait + Drop> Hearing for InputThread<R> {
    ghost use Rattle.gdb_packets.specs.Trusted.{Ended};

    ghost ends = { Ended };

    fn end(&self) -> Option<HearingEnd> {
        self.inbox.heard.lock(&self.rt).end()
    }
}
