//! Workers make their turns beside a thread that rings, and all ends with the claim on a whole sharing.

ghost use Rattle.std.specs.Prelude.{◌≡◌, ◌<◌};
ghost use Rattle.evm_lines.specs.declared.TheConstants.{LINES};
ghost use Rattle.evm_model.specs.Replay.{IsReplayOf};
ghost use Rattle.evm_shared.specs.EventCounts.{kind_counts};

use crate::cases::{RingCase, Rings};
use crate::gates::Gates;
use crate::looks::{Seen, Sums, are_lines_counted, line_totals, look};
use crate::machines::machine_of;
use crate::seats::blanks;
use claims_threads::{Ringing, rings_beside_workers_become_bells};
use evm_bells::{Bells, Closed, Ringer};
use evm_core::Machine;
use evm_devs::AnyDevice;
use evm_lines::LINES;
use evm_shared::{Blanks, Finished, Origin};
use std::alloc::Global;
use std::marker::Brand;
use std::sync::Wait;
use std::sync::ledger::Ledger;
use std::thread;
use std::thread::Threads;

/// Rings, and comes to the gate.
#[derive(Drop)]
struct Beside<'a> {
    rings: Rings,
    gate: &'a Gates,
}

fn ring_line(bells: &Bells, mut ringer: Ringer, cpu: u8, line: u8, rings: Rings) -> Ringer
    requires ringer { ringer.bells ≡ bells.now.id }
    requires place { (cpu < bells.now.cpus) × (line < LINES) }
    ensures { result.bells ≡ bells.now.id }
{
    if line < rings.first || rings.end <= line {
        return ringer;
    }
    bells.ring(&mut ringer, cpu, line);
    ringer
}

fn ring_lines(bells: &Bells, mut ringer: Ringer, cpu: u8, rings: Rings) -> Ringer
    requires { (ringer.bells ≡ bells.now.id) × (cpu < bells.now.cpus) }
    ensures { result.bells ≡ bells.now.id }
{
    for line in 0..LINES {
        ringer = ring_line(bells, ringer, cpu, line, rings);
    }
    ringer
}

fn ring_all(bells: &Bells, mut ringer: Ringer, rings: Rings) -> Ringer
    requires { ringer.bells ≡ bells.now.id }
    ensures { result.bells ≡ bells.now.id }
{
    for cpu in 0..bells.cpus() {
        ringer = ring_lines(bells, ringer, cpu, rings);
    }
    ringer
}

fn ring_often(bells: &Bells, mut ringer: Ringer, rings: Rings) -> Ringer
    requires { ringer.bells ≡ bells.now.id }
    ensures { result.bells ≡ bells.now.id }
{
    for _ in 0..rings.times {
        ringer = ring_all(bells, ringer, rings);
        thread::yield_now();
    }
    ringer
}

impl<'a> Ringing for Beside<'a> {
    fn ring(&self, bells: &Bells, ringer: Ringer) -> Ringer {
        let ringer = ring_often(bells, ringer, self.rings);
        self.gate.come();
        ringer
    }
}

// The claim, whose words are not needed here.
fn ended<
    O: Origin + Send + Sync,
    S: Ledger + Send + Sync,
    B: Ledger + Send + Sync,
    T: Ledger + Send + Sync,
    R: Threads + Wait + Sync,
>(
    rt: &R,
    alloc: Global,
    machine: Machine<AnyDevice>,
    blanks: Blanks,
    cpus: u8,
    beside: &Beside<'_>,
    turns: u32,
) -> Option<(Finished<AnyDevice, O, S, B, T>, Closed)>
    requires replays { IsReplayOf O.start machine }
    requires base { kind_counts machine.journal ≡ O.base }
    requires machine { machine ≡ O.machine }
    requires history { blanks.history ≡ O.book }
    requires steps { (blanks.steps.name ≡ S.name) × (blanks.steps.parts ≡ S.parts) × (S.parts ≡ cpus) }
    requires bells { (blanks.bells.name ≡ B.name) × (blanks.bells.parts ≡ B.parts) × (B.parts ≡ cpus) }
    requires others { (blanks.others.name ≡ T.name) × (blanks.others.parts ≡ T.parts) × (T.parts ≡ cpus) }
{
    rings_beside_workers_become_bells::<AnyDevice, O, S, B, T, R, Gates, Beside<'_>>(
        rt,
        alloc,
        machine,
        blanks,
        cpus,
        beside,
        turns,
        beside.gate,
    )
}

// What is seen of it.
fn seen<
    O: Origin + Send + Sync,
    S: Ledger + Send + Sync,
    B: Ledger + Send + Sync,
    T: Ledger + Send + Sync,
    R: Threads + Wait + Sync,
>(
    rt: &R,
    alloc: Global,
    machine: Machine<AnyDevice>,
    blanks: Blanks,
    cpus: u8,
    case: &RingCase,
) -> Option<(Seen, Sums)>
    requires replays { IsReplayOf O.start machine }
    requires base { kind_counts machine.journal ≡ O.base }
    requires machine { machine ≡ O.machine }
    requires history { blanks.history ≡ O.book }
    requires steps { (blanks.steps.name ≡ S.name) × (blanks.steps.parts ≡ S.parts) × (S.parts ≡ cpus) }
    requires bells { (blanks.bells.name ≡ B.name) × (blanks.bells.parts ≡ B.parts) × (B.parts ≡ cpus) }
    requires others { (blanks.others.name ≡ T.name) × (blanks.others.parts ≡ T.parts) × (T.parts ≡ cpus) }
{
    let gate = Gates::new(case.held, u64::from(cpus) + 1);
    let beside = Beside {
        rings: case.rings,
        gate: &gate,
    };
    let (mut finished, closed) = ended::<O, S, B, T, R>(
        rt, alloc, machine, blanks, cpus, &beside, case.turns,
    )?;
    finished.ports.reverse();
    let counted = are_lines_counted(finished.totals, &closed);
    let mut seen = look(alloc, case.plan, cpus, &gate, finished)?;
    seen.counted = seen.counted && counted;
    Some((seen, line_totals(&closed)))
}

/// Runs a case: what is seen of it, and how many lines were rung fresh, were taken and are left.
pub(crate) fn run_rings<R: Threads + Wait + Sync>(
    rt: &R,
    alloc: Global,
    case: &RingCase,
) -> Option<(Seen, Sums)> {
    let cpus = case.plan.cpus;
    let machine = machine_of(alloc, case.plan)?;
    seen::<Brand, Brand, Brand, Brand, R>(rt, alloc, machine, blanks(cpus), cpus, case)
}
