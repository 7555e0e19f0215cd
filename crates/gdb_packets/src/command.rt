//! What a packet asks for.

/// How a breakpoint was asked for.
#[derive(Clone, Copy, Debug, PartialEq, Eq)]
pub enum BreakKind {
    /// `Z0`: by an instruction.
    Software,
    /// `Z1`: by the hardware.
    Hardware,
}

/// Which accesses of memory a watchpoint is for.
#[derive(Clone, Copy, Debug, PartialEq, Eq)]
pub enum WatchKind {
    /// `Z2`: stores.
    Write,
    /// `Z3`: loads.
    Read,
    /// `Z4`: both.
    Access,
}

/// How a program is resumed.
#[derive(Clone, Copy, Debug, PartialEq, Eq)]
pub enum Pace {
    /// One instruction.
    Step,
    /// Until something stops it.
    Continue,
}

/// What a packet asks for. A thread is the number of its task, or None for any.
#[derive(Clone, Copy, Debug, PartialEq, Eq)]
pub enum Command {
    /// `?`: why the program is stopped.
    Why,
    /// `g`: the registers.
    Registers,
    /// `G DIGITS`: other registers.
    SetRegisters,
    /// `p N`: a register, 32 being the pc.
    Register(u64),
    /// `P N=DIGITS`: another value of a register.
    SetRegister(u64),
    /// `m ADDRESS,COUNT`: bytes of RAM.
    Memory(u64, u64),
    /// `M ADDRESS,COUNT:DIGITS`: other bytes of RAM.
    WriteDigits(u64, u64),
    /// `X ADDRESS,COUNT:BYTES`: the same, as bytes.
    WriteBytes(u64, u64),
    /// `Z0`, `Z1`: a breakpoint.
    Insert(BreakKind, u64),
    /// `z0`, `z1`: no breakpoint any more.
    Remove(BreakKind, u64),
    /// `Z2`, `Z3`, `Z4`: a watchpoint: its address, and how many bytes.
    Watch(WatchKind, u64, u64),
    /// `z2`, `z3`, `z4`: no watchpoint any more.
    Unwatch(WatchKind, u64, u64),
    /// `c`, `s`, `C`, `S`: the thread of the last `Hc` goes on.
    Resume(Pace),
    /// `vCont;`: a thread goes on; and whether there is an action for others.
    ResumeThread(Pace, Option<u8>, bool),
    /// `bs`, `bc`: the thread of the last `Hc` goes back.
    Reverse(Pace),
    /// `Hg`: whose registers are asked for from now on.
    SelectThread(Option<u8>),
    /// `Hc`: who goes on.
    Choose(Option<u8>),
    /// `T`: whether there is such a thread.
    IsThread(Option<u8>),
    /// `qC`: whose registers are asked for.
    Looked,
    /// `qfThreadInfo`: the threads.
    Threads,
    /// `qsThreadInfo`: further threads.
    MoreThreads,
    /// `qThreadExtraInfo`: what there is to say of a thread.
    ThreadText(Option<u8>),
    /// `qSupported`: what is supported.
    Supported,
    /// `qAttached`: whether the program was there before GDB.
    Attached,
    /// `qXfer:features:read:target.xml`: a part of the target description.
    Description(u64, u64),
    /// `qXfer:memory-map:read:`: a part of the memory map.
    MemoryMap(u64, u64),
    /// `qRcmd,DIGITS`: a line for the monitor.
    Monitor,
    /// `QStartNoAckMode`: no acknowledgements any more.
    NoAcknowledgements,
    /// `vCont?`: which actions there are.
    Actions,
    /// `D`: GDB leaves.
    Detach,
    /// `k`: GDB ends the program.
    Kill,
    /// `vKill;`: the same, which is answered.
    KillProcess,
    /// `!`: the program may be started again from now on.
    Extended,
    /// `vRun;`: the program is started; and whether it is the one that is there, without arguments.
    Run(bool),
    /// `R`: the program is started again.
    Restart,
}
