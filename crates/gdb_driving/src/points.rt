//! Where a session stops: breakpoints and watchpoints.

ghost use Rattle.std.specs.Prelude.{◌≡◌, [], not};
ghost use Rattle.evm_model.specs.Refusals.{bad_place};
ghost use Rattle.gdb_driving.specs.Points.{IsSetTo, bad_watch, has_watch, inserted, is_same_watch, watch_number, removed, watched, without, unwatched, with_break, with_watch, without_break, without_watch};

use arrayvec::ArrayVec;
use evm_debug::{Machine, Refusal};
use evm_dev::Device;
use evm_model::BREAKPOINT_LIMIT;
use evm_quiet::Breakpoints;
use gdb_packets::{BreakKind, WatchKind};

/// How many watchpoints a session has at most.
pub const WATCH_LIMIT: usize = 64;

/// A watchpoint: which accesses of which bytes stop a session.
#[derive(Clone, Copy, Debug, PartialEq, Eq)]
pub struct WatchPoint {
    pub kind: WatchKind,
    /// The first of its bytes.
    pub address: u64,
    /// How many they are.
    pub count: u64,
}

impl Default for WatchPoint {
    /// One of no bytes.
    fn default() -> Self {
        WatchPoint {
            kind: WatchKind::Write,
            address: 0,
            count: 0,
        }
    }
}

/// The watchpoints of a session.
pub type WatchPoints = ArrayVec<WatchPoint, WATCH_LIMIT>;

/// The breakpoints and watchpoints of a session. They are no breakpoints of the machine, so no event says that they are there.
#[derive(Debug, Drop)]
pub struct Points {
    /// The breakpoints of `Z0`.
    pub software: Breakpoints,
    /// The breakpoints of `Z1`.
    pub hardware: Breakpoints,
    /// The watchpoints of `Z2`, `Z3` and `Z4`.
    pub watches: WatchPoints,
}

fn watch_number(kind: WatchKind) -> u8
    ensures { result ≡ watch_number kind }
{
    match kind {
        WatchKind::Write => 2,
        WatchKind::Read => 3,
        WatchKind::Access => 4,
    }
}

// Whether two watchpoints are the same.
fn is_same_watch(one: &WatchPoint, other: &WatchPoint) -> bool
    ensures { result ≡ is_same_watch one.now other.now }
{
    watch_number(one.kind) == watch_number(other.kind)
        && one.address == other.address
        && one.count == other.count
}

// Adds an address, if it is not there.
fn add(points: &mut Breakpoints, address: u64) -> Result<(), Refusal>
    ensures { IsSetTo (inserted address points.old) result points.old points.new }
{
    if points.contains(address) {
        return Ok(());
    }
    if points.len() >= BREAKPOINT_LIMIT {
        return Err(Refusal::NoSlot);
    }
    points.push(address);
    Ok(())
}

// Takes an address away, which must be there.
fn take_away(points: &mut Breakpoints, address: u64) -> Result<(), Refusal>
    ensures { IsSetTo (removed address points.old) result points.old points.new }
{
    if !points.contains(address) {
        return Err(Refusal::NoBreakpoint);
    }
    points.remove(address);
    Ok(())
}

// Whether one of the watchpoints is this one.
fn has(watches: &[WatchPoint], point: &WatchPoint) -> bool
    ensures { result ≡ has_watch watches.now point.now }
{
    watches.iter().any(|one| is_same_watch(one, point))
}

// Adds a watchpoint, if it is not there.
fn add_watch(watches: &mut WatchPoints, point: WatchPoint) -> Result<(), Refusal>
    ensures { IsSetTo (watched point watches.old.items) result watches.old.items watches.new.items }
{
    if has(watches.as_slice(), &point) {
        return Ok(());
    }
    match watches.try_push(point) {
        Ok(()) => Ok(()),
        Err(_) => Err(Refusal::NoSlot),
    }
}

// The watchpoints but one.
fn drop_watch(watches: &mut WatchPoints, point: WatchPoint)
    ensures { watches.new.items ≡ without watches.old.items point }
{
    watches.retain(|one| !is_same_watch(one, &point));
}

// Takes a watchpoint away, which must be there.
fn take_watch(watches: &mut WatchPoints, point: WatchPoint) -> Result<(), Refusal>
    ensures { IsSetTo (unwatched point watches.old.items) result watches.old.items watches.new.items }
{
    if !has(watches.as_slice(), &point) {
        return Err(Refusal::NoBreakpoint);
    }
    drop_watch(watches, point);
    Ok(())
}

// Whether a breakpoint may stand at an address: at a multiple of 4 inside RAM.
#[tactic(auto, using(crate::proofs::Inside::found_inside))]
fn may_stand<D: Device>(machine: &Machine<D>, address: u64) -> bool
    ensures { result ≡ not (bad_place address machine.now.board) }
{
    address % 4 == 0 && machine.bytes(address, 1).is_some()
}

// Whether there are bytes to be watched.
#[tactic(auto, using(crate::proofs::Inside::found_inside))]
fn may_watch<D: Device>(machine: &Machine<D>, point: &WatchPoint) -> bool
    ensures { result ≡ not (bad_watch point.now machine.now.board.memory.ram) }
{
    point.count != 0 && machine.bytes(point.address, point.count).is_some()
}

impl Points {
    /// None.
    pub fn new() -> Points
        ensures software { result.software ≡ [] }
        ensures hardware { result.hardware ≡ [] }
        ensures watches { result.watches.items ≡ [] }
    {
        Points {
            software: Breakpoints::new(),
            hardware: Breakpoints::new(),
            watches: ArrayVec::new(),
        }
    }

    /// Sets a breakpoint; one that is there stays.
    ///
    /// # Errors
    ///
    /// `BadAddress` where none may stand, else `NoSlot` where there are 64 of its kind.
    pub fn insert<D: Device>(
        &mut self,
        machine: &Machine<D>,
        kind: BreakKind,
        address: u64,
    ) -> Result<(), Refusal>
        ensures { IsSetTo (with_break kind address machine.now.board self.old) result self.old self.new }
    {
        if !may_stand(machine, address) {
            return Err(Refusal::BadAddress);
        }
        match kind {
            BreakKind::Software => add(&mut self.software, address),
            BreakKind::Hardware => add(&mut self.hardware, address),
        }
    }

    /// Takes a breakpoint away.
    ///
    /// # Errors
    ///
    /// `NoBreakpoint` where there is none.
    pub fn remove(&mut self, kind: BreakKind, address: u64) -> Result<(), Refusal>
        ensures { IsSetTo (without_break kind address self.old) result self.old self.new }
    {
        match kind {
            BreakKind::Software => take_away(&mut self.software, address),
            BreakKind::Hardware => take_away(&mut self.hardware, address),
        }
    }

    /// Sets a watchpoint; one that is there stays.
    ///
    /// # Errors
    ///
    /// `BadAddress` where it has no byte or one outside RAM, else `NoSlot` where there are 64.
    pub fn watch<D: Device>(
        &mut self,
        machine: &Machine<D>,
        point: WatchPoint,
    ) -> Result<(), Refusal>
        ensures { IsSetTo (with_watch point machine.now.board.memory.ram self.old) result self.old self.new }
    {
        if !may_watch(machine, &point) {
            return Err(Refusal::BadAddress);
        }
        add_watch(&mut self.watches, point)
    }

    /// Takes a watchpoint away.
    ///
    /// # Errors
    ///
    /// `NoBreakpoint` where there is none.
    pub fn unwatch(&mut self, point: WatchPoint) -> Result<(), Refusal>
        ensures { IsSetTo (without_watch point self.old) result self.old self.new }
    {
        take_watch(&mut self.watches, point)
    }
}
