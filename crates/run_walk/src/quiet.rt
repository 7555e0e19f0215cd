//! Whether a Step changes only registers and RAM.

ghost use Rattle.std.specs.Prelude.{◌≡◌, true, is_none, is_ok, is_some, slice_get, Option};
ghost use Rattle.evm_exec.specs.declared.hart.Hart as hart;
ghost use Rattle.evm_isa.specs.Decoded.{decoded};
ghost use Rattle.evm_model.specs.Ranks.{may_run_in_band, next_in_band};
ghost use Rattle.evm_quiet.specs.Quiet.{quiet, quiet_effect, quiet_inst};
ghost use Rattle.evm_ram.specs.Ram.{is_inside, read_at};
ghost use Rattle.evm_ram.specs.Width.{bytes_of};
ghost use Rattle.evm_ram.specs.declared.width.Width.TheVariants as width;
ghost use Rattle.run_walk.specs.Quiet.{StepOnlyRuns, StepsChangeNothing, is_unhindered, is_wire_clear, is_quiet, is_quiet_task, is_still, is_still_task};

use crate::calls::ECALL;
use evm_dev::Device;
use evm_exec::{Effect, Hart, effect, load_width};
use evm_isa::decode;
use evm_journal::Machine;
use evm_model::{Processor, TaskState};
use evm_ram::Width;

// Whether an access of this width stays in RAM.
#[tactic(auto, using(crate::proofs::Found::ram_rules))]
fn is_in_ram<D: Device>(machine: &Machine<D>, address: u64, width: Width) -> bool
    ensures { result ≡ is_inside machine.now.board.memory.ram address (bytes_of width) }
{
    machine.bytes(address, width.bytes()).is_some()
}

// The word at the pc; None where a byte of it is outside RAM.
#[tactic(auto, using(crate::proofs::Found::ram_rules))]
fn word_at<D: Device>(machine: &Machine<D>, pc: u64) -> Option<u32>
    ensures { result ≡ read_at machine.now.board.memory.ram pc width.Word }
{
    match machine.bytes(pc, 4)? {
        [a, b, c, d] => Some(u32::from_le_bytes([*a, *b, *c, *d])),
        _ => None,
    }
}

// Whether what an instruction does is done to registers and RAM alone.
#[tactic(auto, using(crate::proofs::Found::ram_rules), unfolding(evm_quiet::specs::Quiet::quiet_effect))]
fn is_quiet_effect<D: Device>(machine: &Machine<D>, wanted: Effect) -> bool
    ensures { (hart : hart.Hart) → result ≡ is_ok (quiet_effect Option.None wanted hart machine.now.board.memory.ram) }
{
    match wanted {
        Effect::Next { .. } => true,
        Effect::Load { op, address, .. } => is_in_ram(machine, address, load_width(op)),
        Effect::Store { width, address, .. } => is_in_ram(machine, address, width),
        Effect::Call | Effect::Break | Effect::Misaligned => false,
    }
}

// Whether a word is a quiet instruction. Of those that aren't, most are calls.
#[tactic(auto, using(crate::proofs::Found::loud_call))]
fn is_quiet_word<D: Device>(machine: &Machine<D>, hart: &Hart, word: u32) -> bool
    ensures { result ≡ is_ok (quiet_inst Option.None (decoded word) hart.now machine.now.board.memory.ram) }
{
    if word == ECALL {
        return false;
    }
    match decode(word) {
        None => false,
        Some(inst) => is_quiet_effect(machine, effect(&inst, hart)),
    }
}

#[tactic(auto, unfolding(evm_quiet::specs::Quiet::quiet))]
fn is_quiet_at<D: Device>(machine: &Machine<D>, hart: &Hart) -> bool
    ensures { result ≡ is_ok (quiet Option.None machine.now.board.breakpoints hart.now machine.now.board.memory.ram) }
{
    if machine.is_breakpoint(hart.pc) {
        return false;
    }
    match word_at(machine, hart.pc) {
        None => false,
        Some(word) => is_quiet_word(machine, hart, word),
    }
}

// Whether a task may be taken up by a processor in-band.
fn may_be_taken_up<D: Device>(machine: &Machine<D>, c: u8, t: u8) -> bool
    ensures { result ≡ may_run_in_band c machine.now.board.parts.tasks t }
{
    match machine.task(t) {
        None => false,
        Some(task) => matches!(task.state, TaskState::InReady) && task.cpu == c,
    }
}

// Whether some task may.
#[tactic(auto, using(crate::proofs::Found::awaiting))]
fn is_awaited<D: Device>(machine: &Machine<D>, c: u8) -> bool
    ensures { result ≡ is_some (next_in_band c machine.now.board.parts.tasks) }
{
    for t in 0..machine.task_count() {
        if may_be_taken_up(machine, c, t) {
            return true;
        }
    }
    false
}

// Whether no task waits for a processor in-band.
fn rests<D: Device>(machine: &Machine<D>, c: u8) -> bool
    ensures { result ≡ is_none (next_in_band c machine.now.board.parts.tasks) }
{
    !is_awaited(machine, c)
}

// Whether an instruction of the task is quiet; where there is none, whether nothing is done.
fn is_quiet_task<D: Device>(machine: &Machine<D>, c: u8, current: Option<u8>) -> bool
    ensures { result ≡ is_quiet_task current c machine.now.board }
{
    match current {
        None => rests(machine, c),
        Some(task) => match machine.lent_hart(task) {
            None => false,
            Some(hart) => is_quiet_at(machine, hart),
        },
    }
}

fn is_wire_clear<D: Device>(machine: &Machine<D>, c: u8) -> bool
    ensures { result ≡ is_wire_clear (slice_get machine.now.board.parts.pipes c) }
{
    match machine.wire(c) {
        None => false,
        Some(wire) => wire.first().is_none(),
    }
}

// Whether a processor passes no breakpoint and has no line on its wire.
fn is_unhindered<D: Device>(machine: &Machine<D>, c: u8, processor: Processor) -> bool
    ensures { result ≡ is_unhindered processor c machine.now.board }
{
    !processor.skip && is_wire_clear(machine, c)
}

// Whether a processor is stopped; or passes no breakpoint, has no line on its wire, and does nothing but a quiet instruction.
#[tactic(auto, unfolding(crate::specs::Quiet::is_quiet))]
fn is_quiet_cpu<D: Device>(machine: &Machine<D>, c: u8) -> bool
    ensures { result ≡ is_quiet c machine.now.board }
{
    match machine.cpu(c) {
        None => false,
        Some(processor) => {
            if processor.stopped {
                return true;
            }
            is_unhindered(machine, c, processor) && is_quiet_task(machine, c, processor.current)
        }
    }
}

/// Whether the next Step of a processor changes only registers and RAM, or nothing: it is stopped; or it passes no breakpoint, has no
/// line on its wire, and its task's instruction is no call, no fault and no access outside RAM; or it has no task, and none waits
/// for it in-band.
pub(crate) fn is_quiet<D: Device>(machine: &Machine<D>, c: u8) -> bool
    ensures tells { result ≡ is_quiet c machine.now.board }
    ensures runs { result ≡ true → StepOnlyRuns c machine.now }
{
    machine.rules();
    is_quiet_cpu(machine, c)
}

// Whether a processor has no task, and none waits for it in-band.
fn is_still_task<D: Device>(machine: &Machine<D>, c: u8, current: Option<u8>) -> bool
    ensures { result ≡ is_still_task current c machine.now.board }
{
    match current {
        None => rests(machine, c),
        Some(_) => false,
    }
}

// Whether a processor is stopped; or passes no breakpoint, has no line on its wire, and nothing to do.
#[tactic(auto, unfolding(crate::specs::Quiet::is_still))]
fn is_still_cpu<D: Device>(machine: &Machine<D>, c: u8) -> bool
    ensures { result ≡ is_still c machine.now.board }
{
    match machine.cpu(c) {
        None => false,
        Some(processor) => {
            if processor.stopped {
                return true;
            }
            is_unhindered(machine, c, processor) && is_still_task(machine, c, processor.current)
        }
    }
}

/// Whether no Step of a processor changes anything: it is stopped; or it has no task, passes no breakpoint, has no line on its wire,
/// and no task waits for it in-band.
pub(crate) fn is_still<D: Device>(machine: &Machine<D>, c: u8) -> bool
    ensures { result ≡ true → StepsChangeNothing c machine.now }
{
    machine.rules();
    is_still_cpu(machine, c)
}
