//! Instructions: their words, what they do to a hart, and bursts of them.

use crate::call::{Call, decimal, given, hexadecimal, sides, word_of};
use crate::writing::{push, push_gap};
use evm_asm::assemble;
use evm_burst::{Cache, speculate};
use evm_exec::{BURST_LIMIT, Burst, Effect, Hart, access, effect, load_width, loaded, private};
use evm_isa::{BranchOp, ImmediateOp, Inst, Register, Shift, ShiftOp, decode, encode};
use std::alloc::Global;
use std::io::{self, ErrorKind};

fn push_word(out: &mut String, word: Option<u32>) -> io::Result<()> {
    match word {
        Some(word) => Ok(write!(out, "{word:08x}")?),
        None => push(out, "none"),
    }
}

/// The instruction of a word, and the word of that instruction.
pub(crate) fn decoded(call: &Call<'_>, out: &mut String) -> io::Result<()> {
    let Some(inst) = decode(word_of(call.text()?)?) else {
        return push(out, "none");
    };
    push_word(out, encode(inst))?;
    Ok(write!(out, " {inst:?}")?)
}

// An instruction on x1, x2 and x3 with a number that may be none of its kind.
fn inst_with(kind: &str, number: i32) -> Option<Inst> {
    let rd = Register::from_low_bits(1);
    let rs1 = Register::from_low_bits(2);
    let rs2 = Register::from_low_bits(3);
    match kind {
        "bne" => Some(Inst::Branch {
            op: BranchOp::Bne,
            rs1,
            rs2,
            offset: number,
        }),
        "jal" => Some(Inst::Jal { rd, offset: number }),
        "addi" => Some(Inst::Immediate {
            op: ImmediateOp::Addi,
            rd,
            rs1,
            immediate: number,
        }),
        "lui" => Some(Inst::Lui {
            rd,
            immediate: number,
        }),
        "sraiw" => Some(Inst::Shift {
            op: ShiftOp::Sraiw,
            rd,
            rs1,
            amount: Shift::new(u8::try_from(number).ok()?)?,
        }),
        "fence" => Some(Inst::Fence {
            rd,
            rs1,
            fields: u16::try_from(number).ok()?,
        }),
        _ => None,
    }
}

/// The word of an instruction with a number that is out of its range.
pub(crate) fn encoded(call: &Call<'_>, out: &mut String) -> io::Result<()> {
    let (kind, number) = sides(' ', call.text()?)?;
    let Ok(number) = number.parse() else {
        return Err(ErrorKind::InvalidInput.into());
    };
    match inst_with(kind, number) {
        Some(inst) => push_word(out, encode(inst)),
        None => Err(ErrorKind::InvalidInput.into()),
    }
}

/// Whether a number is that of a register, and whether it is an amount of a shift.
pub(crate) fn numbers(call: &Call<'_>, out: &mut String) -> io::Result<()> {
    let Ok(number) = u8::try_from(decimal(call.text()?)?) else {
        return Err(ErrorKind::InvalidInput.into());
    };
    let register = Register::new(number).map(|register| register.number());
    let amount = Shift::new(number).map(|shift| shift.amount());
    Ok(write!(out, "{register:?} {amount:?}")?)
}

// The instruction of a line of a source.
fn inst_of(call: &Call<'_>, line: &str) -> io::Result<Inst> {
    let Ok(program) = assemble(call.alloc, line) else {
        return Err(ErrorKind::InvalidInput.into());
    };
    match program.bytes() {
        [a, b, c, d] => {
            decode(u32::from_le_bytes([*a, *b, *c, *d])).ok_or(ErrorKind::InvalidInput.into())
        }
        _ => Err(ErrorKind::InvalidInput.into()),
    }
}

// Sets the registers that the words name, as `x10=ff`; `mem` names the number that is read or written over.
fn set_up(hart: &mut Hart, words: &str) -> io::Result<u64> {
    let mut memory = 0;
    for word in words.split(' ') {
        let (name, value) = sides('=', word)?;
        let value = hexadecimal(value)?;
        match evm_asm_lexer::register_named(name.as_bytes()) {
            Some(register) => hart.set_register(register, value),
            None if name == "mem" => memory = value,
            None if name == "pc" => hart.pc = value,
            None => return Err(ErrorKind::InvalidInput.into()),
        }
    }
    Ok(memory)
}

// The pc, and the registers that differ.
fn push_changes(out: &mut String, before: &Hart, after: &Hart) -> io::Result<()> {
    let pc = after.pc;
    write!(out, "pc={pc:x}")?;
    for (number, (old, new)) in before.regs.iter().zip(after.regs.iter()).enumerate() {
        if *old != *new {
            write!(out, " x{number}={new:x}")?;
        }
    }
    Ok(())
}

// The number in memory of which a store has written the low bytes.
fn over(memory: u64, bytes: u64, value: u64) -> u64 {
    match bytes {
        1 => memory & !0xff | value,
        2 => memory & !0xffff | value,
        4 => memory & !0xffff_ffff | value,
        _ => value,
    }
}

fn push_effect(out: &mut String, done: Effect, memory: u64) -> io::Result<()> {
    match done {
        Effect::Load { op, rd, address } => {
            let number = rd.number();
            let value = loaded(op, memory);
            let width = load_width(op);
            Ok(write!(out, "{width:?} {address:x} x{number}={value:x}")?)
        }
        Effect::Store {
            width,
            address,
            value,
        } => {
            let after = over(memory, width.bytes(), value);
            Ok(write!(out, "{width:?} {address:x} mem={after:x}")?)
        }
        other => Ok(write!(out, "{other:?}")?),
    }
}

// A hart with this number in each register.
fn hart_of(number: u64) -> Hart {
    Hart {
        regs: [number; 32],
        pc: 0x1000,
    }
}

/// What a hart has of the registers and the pc that are named.
pub(crate) fn set(call: &Call<'_>, out: &mut String) -> io::Result<()> {
    let mut hart = hart_of(0x5aa5_0ff0_5aa5_0ff0);
    set_up(&mut hart, call.text()?)?;
    push_changes(out, &hart_of(0x5aa5_0ff0_5aa5_0ff0), &hart)
}

/// What an instruction, behind the colon, does to a hart whose registers and pc are named before it; the others hold
/// 5aa50ff05aa50ff0.
pub(crate) fn executed(call: &Call<'_>, out: &mut String) -> io::Result<()> {
    let text = call.text()?;
    let Some((words, line)) = text.split_once(" : ") else {
        return Err(ErrorKind::InvalidInput.into());
    };
    let mut hart = hart_of(0x5aa5_0ff0_5aa5_0ff0);
    let memory = set_up(&mut hart, words)?;
    let inst = inst_of(call, line)?;
    match private(&inst, &hart) {
        Some(after) => push_changes(out, &hart, &after)?,
        None => push_effect(out, effect(&inst, &hart), memory)?,
    }
    match access(&inst, &hart) {
        Some(access) => Ok(write!(out, " {access:?}")?),
        None => Ok(()),
    }
}

// A hart with no number in a register, at the first address of RAM.
fn fresh() -> Hart {
    Hart {
        regs: [0; 32],
        pc: 0x8000_0000,
    }
}

fn push_burst(out: &mut String, burst: &Burst) -> io::Result<()> {
    let count = burst.len();
    write!(out, "{count}: ")?;
    for (address, word) in burst.pairs() {
        write!(out, "{address:x}={word:x} ")?;
    }
    push_changes(out, burst.start(), burst.end())
}

/// A burst of words: which of them are taken, and what they do.
pub(crate) fn burst(call: &Call<'_>, out: &mut String) -> io::Result<()> {
    let mut burst = Burst::empty(fresh());
    for word in call.text()?.split(' ') {
        let word = word_of(word)?;
        let is_taken = burst.len() < BURST_LIMIT && burst.extend(word);
        push(out, if is_taken { "+" } else { "-" })?;
    }
    push(out, " ")?;
    push_burst(out, &burst)
}

// Words with a plus between them.
fn words_of(alloc: Global, text: &str) -> io::Result<Vec<u32>> {
    let mut words = Vec::new(alloc);
    for word in text.split('+') {
        words.push(word_of(word)?)?;
    }
    Ok(words)
}

// Notes or gets a word of a cache, or fills it with this count.
fn use_cache(call: &Call<'_>, cache: &mut Cache, word: &str, out: &mut String) -> io::Result<()> {
    let (kind, word) = sides(':', word)?;
    match kind {
        "get" => {
            push_gap(out)?;
            push_word(out, cache.get(hexadecimal(word)?))
        }
        "fill" => {
            let mut address = 0x8000_0000u64;
            for _ in 0..decimal(word)? {
                cache.note(address, &[0x0050_0513]);
                address = address.wrapping_add(4);
            }
            Ok(())
        }
        _ => {
            let (address, words) = sides('=', word)?;
            let words = words_of(call.alloc, words)?;
            cache.note(hexadecimal(address)?, words.as_slice());
            Ok(())
        }
    }
}

/// A cache: `note:ADDRESS=WORD+WORD` notes words, `get:ADDRESS` gets one, `fill:COUNT` notes `addi x10, x0, 5` at this count of
/// addresses; and what is done ahead by it.
pub(crate) fn cache(call: &Call<'_>, out: &mut String) -> io::Result<()> {
    let mut cache = given(Cache::new(call.alloc))?;
    for word in call.text()?.split(' ') {
        use_cache(call, &mut cache, word, out)?;
    }
    push_gap(out)?;
    push_burst(out, &speculate(&fresh(), &mut cache))
}
