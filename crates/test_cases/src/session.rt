//! A session: a machine under GDB, and the exchanges.

use crate::exchange::{Exchange, begins};
use crate::line::{Line, line_of, said};
use crate::machine::{Setting, assembled, image_of, names_of, run_lines, setting_of};
use crate::peer::{Heard, Sent};
use evm_command::program_devices;
use evm_devs::AnyDevice;
use evm_ram::Image;
use gdb_answers::{Dialogue, Ended, GdbSession, Machine, serve_gdb};
use std::alloc::Global;
use std::io;
use std::rt::Files;

// Where a session stands in its file.
#[derive(Clone, Copy)]
struct Place<'a> {
    file: &'a str,
    lines: &'a [&'a str],
    from: usize,
}

// Whether a session ended as it must: where each write fails, by that.
fn ends_as_wanted(setting: &Setting<'_>, ended: &Ended) -> bool {
    match ended {
        Ended::Left | Ended::Saves | Ended::Boots => !setting.unwritten,
        Ended::WriteFailed(_) => setting.unwritten,
        _ => false,
    }
}

// Boots a session anew with its image, unless that is gone.
fn boot_anew(
    rt: &(impl Files + AllocGlobal),
    session: &mut GdbSession,
    setting: &Setting<'_>,
) -> io::Result<()> {
    session.keep();
    if setting.gone {
        return Ok(());
    }
    if let (Some(image), Some(names)) = (image_for(rt, setting)?, names_of(rt, setting)?) {
        let _ = session.boot(rt.alloc(), image, names);
    }
    Ok(())
}

// Serves a session to its end, and boots it anew where that is asked for.
fn serve(
    rt: &(impl Files + AllocGlobal),
    session: &mut GdbSession,
    setting: &Setting<'_>,
    source: &mut Sent<'_>,
    heard: &mut Heard,
) -> io::Result<Ended> {
    let mut dialogue = Dialogue::new(rt.alloc());
    'parts: for _ in 0..u64::MAX {
        match serve_gdb(rt.alloc(), session, &mut dialogue, source, heard) {
            Ended::Boots => boot_anew(rt, session, setting)?,
            ended => return Ok(ended),
        }
    }
    Ok(Ended::Boots)
}

// Sends what an exchange has, and returns what was answered, and whether that ended as it must.
fn answered(
    rt: &(impl Files + AllocGlobal),
    session: &mut GdbSession,
    setting: &Setting<'_>,
    exchange: &Exchange,
) -> io::Result<(Vec<u8>, bool)> {
    let mut source = Sent {
        rest: exchange.sent.as_slice(),
        piece: if exchange.in_pieces { 1 } else { usize::MAX },
        asks: setting.interrupted,
    };
    let mut heard = Heard {
        bytes: Vec::new(rt.alloc()),
        fails: setting.unwritten,
    };
    let ended = serve(rt, session, setting, &mut source, &mut heard)?;
    Ok((heard.bytes, ends_as_wanted(setting, &ended)))
}

// Makes an exchange, and reports an answer that is another. `line` is the number of the line behind it.
fn exchange_made(
    rt: &(impl Files + Print + AllocGlobal),
    place: Place<'_>,
    line: usize,
    session: &mut GdbSession,
    setting: &Setting<'_>,
    exchange: &Exchange,
) -> io::Result<()> {
    let (bytes, ended) = answered(rt, session, setting, exchange)?;
    if ended && bytes.as_slice() == exchange.wanted.as_slice() {
        return Ok(());
    }
    let sent = said(rt.alloc(), exchange.sent.as_slice())?;
    let had = said(rt.alloc(), bytes.as_slice())?;
    let wanted = said(rt.alloc(), exchange.wanted.as_slice())?;
    let end = if ended { "" } else { ", and another end" };
    let file = place.file;
    println!(rt; "{file}:{line}: {sent} is answered by {had}, wanted {wanted}{end}")
}

// Makes the exchanges of a session, and returns how many.
fn talk(
    rt: &(impl Files + Print + AllocGlobal),
    place: Place<'_>,
    session: &mut GdbSession,
    setting: &Setting<'_>,
) -> io::Result<usize> {
    let mut exchange = Exchange::new(rt.alloc());
    let mut count = 0usize;
    let lines = place.lines;
    for i in place.from.saturating_add(1)..lines.len() {
        if line_of(lines[i]) == Line::Session {
            break;
        }
        if begins(lines, i) && !exchange.sent.is_empty() {
            exchange_made(rt, place, i, session, setting, &exchange)?;
            exchange.clear();
            count = count.saturating_add(1);
        }
        exchange.take(rt.alloc(), lines[i])?;
    }
    if exchange.sent.is_empty() {
        return Ok(count);
    }
    exchange_made(rt, place, lines.len(), session, setting, &exchange)?;
    Ok(count.saturating_add(1))
}

// The same, of a machine that is as the session says; else a line says that it isn't.
fn talk_if(
    rt: &(impl Files + Print + AllocGlobal),
    place: Place<'_>,
    prepared: bool,
    session: &mut GdbSession,
    setting: &Setting<'_>,
) -> io::Result<usize> {
    if prepared {
        return talk(rt, place, session, setting);
    }
    let Place { file, from, .. } = place;
    println!(rt; "{file}:{from}: no such machine")?;
    Ok(0)
}

// Loads the image and runs the lines of the script; false where one isn't done.
fn prepare(
    alloc: Global,
    machine: &mut Machine<AnyDevice>,
    place: Place<'_>,
    image: &Image,
) -> bool {
    let loaded = machine.load(image).is_ok();
    let done = run_lines(alloc, machine, place.lines, place.from);
    loaded && done
}

// The image of a session's source, or an empty one.
fn image_for(rt: &(impl Files + AllocGlobal), setting: &Setting<'_>) -> io::Result<Option<Image>> {
    match setting.source {
        Some(name) => image_of(rt, name),
        None => Ok(assembled(rt.alloc(), "")),
    }
}

/// Plays the session that begins at line `from` of a file, and returns how many exchanges it has.
pub(crate) fn play(
    rt: &(impl Files + Print + AllocGlobal),
    file: &str,
    lines: &[&str],
    from: usize,
) -> io::Result<usize> {
    let place = Place { file, lines, from };
    let setting = setting_of(lines, from);
    let image = image_for(rt, &setting)?;
    let names = names_of(rt, &setting)?;
    let made = match (setting.boot, program_devices(rt.alloc()), image, names) {
        (Some(numbers), Ok(devices), Some(image), Some(names)) => {
            match Machine::from_boot(rt.alloc(), numbers, devices) {
                Ok(machine) => Some((machine, image, names)),
                Err(_) => None,
            }
        }
        _ => None,
    };
    let Some((mut machine, image, names)) = made else {
        println!(rt; "{file}:{from}: no machine")?;
        return Ok(0);
    };
    let prepared = prepare(rt.alloc(), &mut machine, place, &image);
    let mut session = GdbSession::new(rt.alloc(), image, names, machine);
    session.acknowledges = setting.acknowledged;
    talk_if(rt, place, prepared, &mut session, &setting)
}
