//! What a fault does to its own task, and to the stall bits of its processor.
ghost use Rattle.std.specs.Prelude.{◌≡◌, ◌≢◌, ℕ, true, false, Option, slice_get};
ghost use Rattle.evm_exec.specs.declared.hart.Hart.{Hart};
ghost use Rattle.evm_model.specs.Instructions.{execute, fault};
ghost use Rattle.evm_model.specs.Memory.{fetch};
ghost use Rattle.evm_model.specs.Pipes.{Pipe};
ghost use Rattle.evm_model.specs.State.{Board, Parts, on_parts};
ghost use Rattle.evm_model.specs.declared.fault.Fault.{Fault};
ghost use Rattle.evm_model.specs.declared.processor.Processor.{Processor};
ghost use Rattle.evm_model.specs.declared.task.Task.{Task};
ghost use Rattle.evm_model.specs.declared.task.TaskState.{TaskState};
ghost use Rattle.law_runs.specs.Noticing.{word_faults};

/// An instruction that faults does nothing else. A fault takes its out-of-band task in-band, with a fresh stamp, and its
/// processor's out-of-band stage is not stalled afterwards. It ends an in-band task, which is in-band current no more, and
/// the in-band stage of its processor is not stalled afterwards. In both cases the task's registers and pc stay, and so do
/// the other stage, what the logs hold, and the other processors' pipes.
pub fn a_fault_takes_its_task_in_band_or_ends_it()
    ensures only { (c t : ℕ) (hart : Hart) (b : Board) → word_faults (fetch hart.pc b.memory) hart b.memory ≡ true →
        (f : Fault) × (execute hart c t b ≡ on_parts (fault c t f) b) }
    ensures oob { (c t : ℕ) (f : Fault) (k : Parts) (task : Task) → slice_get k.tasks t ≡ Option.Some task → task.state ≡ TaskState.OobReady →
        (slice_get (fault c t f k).tasks t ≡ Option.Some (record task { state = TaskState.InReady; stamp = k.stamps }))
        × ((fault c t f k).harts ≡ k.harts) × ((fault c t f k).mutexes ≡ k.mutexes) }
    ensures opens_oob { (c t : ℕ) (f : Fault) (k : Parts) (task : Task) → slice_get k.tasks t ≡ Option.Some task → task.state ≡ TaskState.OobReady →
        ((pipe : Pipe) → slice_get k.pipes c ≡ Option.Some pipe →
        slice_get (fault c t f k).pipes c ≡ Option.Some (record pipe { oob = record pipe.oob { stalled = false } }))
        × ((d : ℕ) → d ≢ c → slice_get (fault c t f k).pipes d ≡ slice_get k.pipes d) }
    ensures in_band { (c t : ℕ) (f : Fault) (k : Parts) (task : Task) (hart : Hart) → slice_get k.tasks t ≡ Option.Some task → task.state ≡ TaskState.InReady →
        slice_get k.harts t ≡ Option.Some hart →
        (slice_get (fault c t f k).tasks t ≡ Option.Some (record task { state = TaskState.Faulted f }))
        × (slice_get (fault c t f k).harts t ≡ Option.Some hart)
        × ((p : Processor) → slice_get (fault c t f k).processors c ≡ Option.Some p → p.in_band_task ≡ Option.None) }
    ensures opens_in_band { (c t : ℕ) (f : Fault) (k : Parts) (task : Task) → slice_get k.tasks t ≡ Option.Some task → task.state ≡ TaskState.InReady →
        ((pipe : Pipe) → slice_get k.pipes c ≡ Option.Some pipe →
        slice_get (fault c t f k).pipes c ≡ Option.Some (record pipe { in_band = record pipe.in_band { stalled = false } }))
        × ((d : ℕ) → d ≢ c → slice_get (fault c t f k).pipes d ≡ slice_get k.pipes d) }
{}
