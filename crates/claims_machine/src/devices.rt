//! Devices: which there are, what changes their words, where their registers are, and which accesses they answer.
ghost use Rattle.std.specs.Prelude.{◌≡◌, ◌≢◌, ◌+◌, ◌*◌, ◌<◌, ℕ, List, Option, Result, slice_get, map};
ghost use Rattle.evm_dev.specs.Rows.{ticked, touched};
ghost use Rattle.evm_dev.specs.declared.touch.Op.{Op};
ghost use Rattle.evm_exec.specs.Memory.{width_of_load};
ghost use Rattle.evm_exec.specs.declared.outcome.Effect.{Effect};
ghost use Rattle.evm_isa.specs.declared.inst.LoadOp.{LoadOp};
ghost use Rattle.evm_model.specs.Devices.{Accessed, Attached, register_at, touch};
ghost use Rattle.evm_model.specs.Event.{Event as OfEvent};
ghost use Rattle.evm_model.specs.Instructions.{fault, finish};
ghost use Rattle.evm_model.specs.Memory.{access_device, read, write};
ghost use Rattle.evm_model.specs.Replay.{apply, replay};
ghost use Rattle.evm_model.specs.State.{Board, Memory, State, on_parts};
ghost use Rattle.evm_model.specs.declared.event.Answer.{Answer};
ghost use Rattle.evm_model.specs.declared.event.Event.TheVariants as Event;
ghost use Rattle.evm_model.specs.declared.fault.Fault.{Fault};
ghost use Rattle.evm_ram.specs.declared.width.Width.{Width};

/// Whatever happens to a machine, it has the same devices: as many, in the same order, and each of its kind.
pub fn device_kinds_never_change()
    ensures { (s : State) (events : List OfEvent) →
        map (λ (device : Attached). device.kind) (replay s events).board.memory.devices ≡ map (λ (device : Attached). device.kind) s.board.memory.devices }
{
    law_runs::sizes_stay();
}

/// An accepted Tick changes the words of each device as the tick of its kind says; every other accepted event but a Step and
/// a single step leaves them. (What these two change is the field `devices` of `StepChangesOnly`.)
pub fn a_tick_changes_devices_by_their_kinds()
    ensures ticks { (old new : State) (answer : Answer) → apply old Event.Tick ≡ Result.Ok (new, answer) →
        new.board.memory.devices ≡ map (λ (device : Attached). record device { words = (ticked device.kind device.words).words }) old.board.memory.devices }
    ensures others { (old new : State) (event : OfEvent) (answer : Answer) → apply old event ≡ Result.Ok (new, answer) →
        event ≢ Event.Tick → ((c : ℕ) → (event ≢ Event.Step c) × (event ≢ Event.StepI c)) →
        new.board.memory.devices ≡ old.board.memory.devices }
{
    law_runs::events_change_only();
}

/// Register r of device i, of 16, is found at one address, 0x10000000 + 0x1000 * i + 8 * r, and there alone.
pub fn a_register_has_one_address()
    ensures found { (i r address : ℕ) → register_at address ≡ Option.Some (i, r) → (r < 16) × (address ≡ 0x10000000 + 0x1000 * i + 8 * r) }
    ensures there { (i r : ℕ) → r < 16 → register_at (0x10000000 + 0x1000 * i + 8 * r) ≡ Option.Some (i, r) }
{
    law_rules::registers_are_found();
}

/// A load that neither RAM nor a device answers is fault 5, a store fault 7, and memory stands. A device answers no access of
/// less than 8 bytes, none where it has no register, and none where the row of the register gives no answer.
pub fn an_unanswered_access_faults()
    ensures load { (op : LoadOp) (rd address c t : ℕ) (b : Board) → read address (width_of_load op) b.memory ≡ Option.None →
        finish (Effect.Load op rd address) c t b ≡ on_parts (fault c t Fault.Load) b }
    ensures store { (width : Width) (address value c t : ℕ) (b : Board) → write address width value b.memory ≡ Option.None →
        finish (Effect.Store width address value) c t b ≡ on_parts (fault c t Fault.Store) b }
    ensures narrow { (op : Op) (width : Width) (address value : ℕ) (m : Memory) → width ≢ Width.Double →
        access_device op width address value m ≡ Option.None }
    ensures no_register { (op : Op) (address value : ℕ) (m : Memory) → register_at address ≡ Option.None → touch op address value m ≡ Option.None }
    ensures no_device { (op : Op) (address value i r : ℕ) (m : Memory) → register_at address ≡ Option.Some (i, r) → slice_get m.devices i ≡ Option.None →
        touch op address value m ≡ Option.None }
    ensures no_answer { (op : Op) (address value i r : ℕ) (device : Attached) (m : Memory) → register_at address ≡ Option.Some (i, r) →
        slice_get m.devices i ≡ Option.Some device → (touched device.kind op r value device.words).touch.answer ≡ Option.None →
        touch op address value m ≡ Option.None }
{
    law_runs::accesses_are_answered(); // the clauses faults and none
}

/// A load that is answered leaves memory, and so the devices, as the access did, whatever register it loads: also x0.
pub fn a_load_touches_whatever_its_register()
    ensures { (op : LoadOp) (rd address c t : ℕ) (b : Board) (access : Accessed) → read address (width_of_load op) b.memory ≡ Option.Some access →
        (finish (Effect.Load op rd address) c t b).memory ≡ access.memory }
{
    law_runs::accesses_are_answered(); // the clause loads
}
