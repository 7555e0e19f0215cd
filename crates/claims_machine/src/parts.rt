//! Each part meets its rows: what each event except a Step changes, which task is first, which refusal is reported.
ghost use Rattle.std.specs.Prelude.{◌≡◌, ◌≢◌, ◌+◌, ◌^◌, ◌<◌, ◌≤◌, ◌++◌, ℕ, List, [], ◌∷◌, Bool, true, false, Option, Result, if◌then◌else◌, slice_get, slice_index, length, option_map};
ghost use Rattle.evm_exec.specs.declared.hart.TheConstants.{REGISTERS};
ghost use Rattle.evm_exec.specs.Registers.{register_of, with_register};
ghost use Rattle.evm_exec.specs.declared.hart.Hart.{Hart};
ghost use Rattle.evm_isa.specs.Decoded.{decoded};
ghost use Rattle.evm_isa.specs.Encoded.{encoded};
ghost use Rattle.evm_isa.specs.Table.{Row};
ghost use Rattle.evm_isa.specs.declared.inst.Inst.{Inst};
ghost use Rattle.evm_lines.specs.Lines.{has_line, with_line};
ghost use Rattle.evm_model.specs.Commands.{is_set};
ghost use Rattle.evm_model.specs.Devices.{Attached};
ghost use Rattle.evm_model.specs.Load.{start_loaded};
ghost use Rattle.evm_model.specs.Pipes.{Pipe, raise};
ghost use Rattle.evm_model.specs.Ranks.{best, first, goes_before, rank};
ghost use Rattle.evm_model.specs.Refusals.{applies};
ghost use Rattle.evm_model.specs.Replay.{apply, start};
ghost use Rattle.evm_model.specs.Settle.{current};
ghost use Rattle.evm_model.specs.State.{State};
ghost use Rattle.evm_model.specs.declared.boot.Boot.{Boot};
ghost use Rattle.evm_model.specs.declared.counts.Counts.{Counts};
ghost use Rattle.evm_model.specs.declared.event.Answer.{Answer};
ghost use Rattle.evm_model.specs.Event.{Event};
ghost use Rattle.evm_model.specs.declared.event.Event.TheVariants as Event;
ghost use Rattle.evm_model.specs.declared.mutex.Mutex.{Mutex};
ghost use Rattle.evm_model.specs.declared.processor.Processor.{Processor};
ghost use Rattle.evm_model.specs.declared.task.Task.{Task};
ghost use Rattle.evm_model.specs.declared.task.TaskState.{TaskState};
ghost use Rattle.evm_ram.specs.Ram.{poke_at};
ghost use Rattle.law_runs.specs.Touching.{tick_pipe};
ghost use Rattle.evm_ram.specs.declared.ram.TheConstants.{BASE};
ghost use Rattle.evm_model.specs.Refusals.{number_of};
ghost use Rattle.evm_model.specs.declared.refusal.Refusal.{Refusal};

/// What an instruction was encoded to is decoded to it, and the other way round, by the table; a word of 32 bits stands
/// for at most one instruction of the table, and an instruction has at most one such word.
pub fn words_and_instructions_are_inverse()
    ensures read_again { (i : Inst) (w : ℕ) → encoded i ≡ Option.Some w → decoded w ≡ Option.Some i }
    ensures written_again { (w : ℕ) (i : Inst) → w < 2 ^ 32 → decoded w ≡ Option.Some i → encoded i ≡ Option.Some w }
    ensures in_the_table { (w : ℕ) (i : Inst) → w < 2 ^ 32 → decoded w ≡ Option.Some i → Row i w }
    ensures all_of_it { (w : ℕ) (i : Inst) → w < 2 ^ 32 → Row i w →
        (decoded w ≡ Option.Some i) × (encoded i ≡ Option.Some w) }
    ensures of_32_bits { (i : Inst) (w : ℕ) → encoded i ≡ Option.Some w → (w < 2 ^ 32) × Row i w }
    ensures one_instruction { (w : ℕ) (i j : Inst) → w < 2 ^ 32 → Row i w → Row j w → i ≡ j }
    ensures one_word { (i : Inst) (v w : ℕ) → v < 2 ^ 32 → w < 2 ^ 32 → Row i v → Row i w → v ≡ w }
{
    evm_isa::decoded_by_table();
    evm_isa::encoded_by_table();
    evm_isa::decode_of_encode();
    evm_isa::encode_of_decode();
    evm_isa::one_instruction();
    evm_isa::one_word();
}

/// A register that is not x0 reads what was written to it last, and every other register what it read before.
pub fn a_register_keeps_its_number()
    ensures written { (regs : List ℕ) (n value : ℕ) → 0 < n → n < length regs →
        register_of (with_register regs n value) n ≡ value }
    ensures others { (regs : List ℕ) (n m value : ℕ) → m ≢ n →
        register_of (with_register regs n value) m ≡ register_of regs m }
    ensures x0 { (regs : List ℕ) (n value : ℕ) →
        slice_index (with_register regs n value) 0 ≡ slice_index regs 0 }
{
    evm_exec::registers_hold();
}

/// Where an image is loaded into a machine at its start, RAM keeps its size, and each byte of it is the image's at that
/// address.
pub fn an_image_stands_in_ram()
    ensures size { (devices : List Attached) (byte : ℕ → ℕ) (entry : ℕ) (boot : Boot) →
        length (start_loaded devices byte entry boot).board.memory.ram ≡ boot.ram }
    ensures each { (devices : List Attached) (byte : ℕ → ℕ) (entry : ℕ) (boot : Boot) (i : ℕ) → i < boot.ram →
        slice_index (start_loaded devices byte entry boot).board.memory.ram i ≡ byte (BASE + i) }
{
    law_runs::loads_each_byte();
}

/// Where an image is loaded into a machine at its start, task 0, the only one, begins at the entry: its x2 is the address
/// behind RAM, and its other registers are zero. All but RAM and this pc is as it was booted.
pub fn an_image_begins_at_its_entry()
    ensures hart { (devices : List Attached) (byte : ℕ → ℕ) (entry : ℕ) (boot : Boot) →
        (hart : Hart) × ((start_loaded devices byte entry boot).board.parts.harts ≡ hart ∷ [])
        × (hart.pc ≡ entry) × (length hart.regs ≡ REGISTERS) × (register_of hart.regs 2 ≡ BASE + boot.ram)
        × ((r : ℕ) → r < 32 → r ≢ 2 → register_of hart.regs r ≡ 0) }
    ensures rest { (devices : List Attached) (byte : ℕ → ℕ) (entry : ℕ) (boot : Boot) (booted loaded : State) →
        booted ≡ start devices boot → loaded ≡ start_loaded devices byte entry boot →
        loaded ≡ record booted {
          board = record booted.board {
            memory = record booted.board.memory { ram = loaded.board.memory.ram };
            parts = record booted.board.parts { harts = loaded.board.parts.harts };
          };
        } }
{
    law_runs::loads_the_entry();
}

/// An event that is accepted is the last of the journal afterwards, and changes no boot number; unless it is a
/// Step it answers Done.
pub fn an_accepted_event_is_journaled()
    ensures journal { (old new : State) (event : Event) (answer : Answer) → apply old event ≡ Result.Ok (new, answer) →
        new.journal ≡ old.journal ++ event ∷ [] }
    ensures boot { (old new : State) (event : Event) (answer : Answer) → apply old event ≡ Result.Ok (new, answer) →
        new.boot ≡ old.boot }
    ensures answers { (old new : State) (event : Event) (answer : Answer) → apply old event ≡ Result.Ok (new, answer) →
        ((c : ℕ) → event ≢ Event.Step c) → answer ≡ Answer.Done }
{
    law_runs::events_change_only();
}

/// An accepted Tick moves the clock by one, has each device tick, and raises line 0 on every processor, on processor 0 after
/// the lines of the devices that raise them by their ticks; it changes nothing else but the journal.
pub fn a_tick_moves_the_clock()
    ensures rest { (old new : State) (answer : Answer) → apply old Event.Tick ≡ Result.Ok (new, answer) →
        new.board ≡ record old.board {
          memory = record old.board.memory { devices = new.board.memory.devices };
          parts = record old.board.parts { ticks = old.board.parts.ticks + 1; pipes = new.board.parts.pipes };
        } }
    ensures pipes { (old new : State) (answer : Answer) → apply old Event.Tick ≡ Result.Ok (new, answer) → (c : ℕ) → c ≢ 0 →
        slice_get new.board.parts.pipes c ≡ option_map (raise 0) (slice_get old.board.parts.pipes c) }
    ensures first { (old new : State) (answer : Answer) → apply old Event.Tick ≡ Result.Ok (new, answer) →
        slice_get new.board.parts.pipes 0 ≡ option_map (λ pipe. raise 0 (tick_pipe 0 old.board.memory.devices pipe)) (slice_get old.board.parts.pipes 0) }
{
    law_runs::events_change_only();
}

/// An accepted Raise or Bell changes one pipe: its line is on the wire, and is counted as raised, and as merged if it
/// was on the wire before; no other line's counts, no stage and no other processor's pipe change.
pub fn a_raise_puts_its_line_on_the_wire()
    ensures raised { (old new : State) (answer : Answer) (c l : ℕ) → apply old (Event.Raise c l) ≡ Result.Ok (new, answer) →
        (new.board ≡ record old.board { parts = record old.board.parts { pipes = new.board.parts.pipes } })
        × (slice_get new.board.parts.pipes c ≡ option_map (raise l) (slice_get old.board.parts.pipes c))
        × ((d : ℕ) → d ≢ c → slice_get new.board.parts.pipes d ≡ slice_get old.board.parts.pipes d) }
    ensures bell { (old new : State) (answer : Answer) (c l : ℕ) → apply old (Event.Bell c l) ≡ Result.Ok (new, answer) →
        (new.board ≡ record old.board { parts = record old.board.parts { pipes = new.board.parts.pipes } })
        × (slice_get new.board.parts.pipes c ≡ option_map (raise l) (slice_get old.board.parts.pipes c))
        × ((d : ℕ) → d ≢ c → slice_get new.board.parts.pipes d ≡ slice_get old.board.parts.pipes d) }
    ensures wire { (l : ℕ) (pipe : Pipe) → (raise l pipe).wire ≡ with_line pipe.wire l }
    ensures stages { (l : ℕ) (pipe : Pipe) → ((raise l pipe).oob ≡ pipe.oob) × ((raise l pipe).in_band ≡ pipe.in_band) }
    ensures counts { (l : ℕ) (pipe : Pipe) (n : Counts) → slice_get pipe.counts l ≡ Option.Some n →
        slice_get (raise l pipe).counts l ≡ Option.Some (record n { raised = n.raised + 1; merged = (if has_line pipe.wire l then n.merged + 1 else n.merged) }) }
    ensures others { (l m : ℕ) (pipe : Pipe) → m ≢ l → slice_get (raise l pipe).counts m ≡ slice_get pipe.counts m }
{
    law_runs::events_change_only();
    law_runs::raises_one_line();
}

/// Each accepted command of the debugger but a single step changes the one place that it names, and nothing else but the
/// journal: the bits of a processor, the registers or the pc of its current task, bytes of RAM, or one breakpoint.
pub fn a_command_changes_one_place()
    ensures stops { (old new : State) (answer : Answer) (c : ℕ) → apply old (Event.Stop c) ≡ Result.Ok (new, answer) →
        (new.board ≡ record old.board { parts = record old.board.parts { processors = new.board.parts.processors } })
        × (slice_get new.board.parts.processors c ≡ option_map (λ (p : Processor). record p { stopped = true }) (slice_get old.board.parts.processors c))
        × ((d : ℕ) → d ≢ c → slice_get new.board.parts.processors d ≡ slice_get old.board.parts.processors d) }
    ensures goes { (old new : State) (answer : Answer) (c : ℕ) → apply old (Event.Go c) ≡ Result.Ok (new, answer) →
        (new.board ≡ record old.board { parts = record old.board.parts { processors = new.board.parts.processors } })
        × (slice_get new.board.parts.processors c ≡ option_map (λ (p : Processor). record p { stopped = false; skip = true }) (slice_get old.board.parts.processors c))
        × ((d : ℕ) → d ≢ c → slice_get new.board.parts.processors d ≡ slice_get old.board.parts.processors d) }
    ensures sets_a_register { (old new : State) (answer : Answer) (c r value : ℕ) → apply old (Event.SetReg c r value) ≡ Result.Ok (new, answer) →
        (new.board ≡ record old.board { parts = record old.board.parts { harts = new.board.parts.harts } })
        × ((task : ℕ) × ((current c old.board.parts ≡ Option.Some task)
        × (slice_get new.board.parts.harts task ≡ option_map (λ (hart : Hart). record hart { regs = with_register hart.regs r value }) (slice_get old.board.parts.harts task))
        × ((other : ℕ) → other ≢ task → slice_get new.board.parts.harts other ≡ slice_get old.board.parts.harts other))) }
    ensures sets_a_pc { (old new : State) (answer : Answer) (c pc : ℕ) → apply old (Event.SetPc c pc) ≡ Result.Ok (new, answer) →
        (new.board ≡ record old.board { parts = record old.board.parts { harts = new.board.parts.harts } })
        × ((task : ℕ) × ((current c old.board.parts ≡ Option.Some task)
        × (slice_get new.board.parts.harts task ≡ option_map (λ (hart : Hart). record hart { pc = pc }) (slice_get old.board.parts.harts task))
        × ((other : ℕ) → other ≢ task → slice_get new.board.parts.harts other ≡ slice_get old.board.parts.harts other))) }
    ensures pokes { (old new : State) (answer : Answer) (address : ℕ) (bytes : _) → apply old (Event.Poke address bytes) ≡ Result.Ok (new, answer) →
        (new.board ≡ record old.board { memory = record old.board.memory { ram = new.board.memory.ram } })
        × (poke_at old.board.memory.ram address bytes.items ≡ Option.Some new.board.memory.ram) }
    ensures sets_a_breakpoint { (old new : State) (answer : Answer) (address : ℕ) → apply old (Event.Break address) ≡ Result.Ok (new, answer) →
        (new.board ≡ record old.board { breakpoints = new.board.breakpoints })
        × (is_set new.board.breakpoints address ≡ true)
        × ((other : ℕ) → other ≢ address → is_set new.board.breakpoints other ≡ is_set old.board.breakpoints other)
        × (is_set old.board.breakpoints address ≡ true → new.board ≡ old.board) }
    ensures takes_a_breakpoint { (old new : State) (answer : Answer) (address : ℕ) → apply old (Event.Unbreak address) ≡ Result.Ok (new, answer) →
        (new.board ≡ record old.board { breakpoints = new.board.breakpoints })
        × (is_set new.board.breakpoints address ≡ false)
        × ((other : ℕ) → other ≢ address → is_set new.board.breakpoints other ≡ is_set old.board.breakpoints other) }
{
    law_runs::events_change_only();
}

/// The best task of a processor is one that is ready out-of-band there, of no lesser rank than any other such, and of
/// one rank of no greater stamp; there is none only where no task is ready out-of-band there. Where no two members of a
/// set have one stamp, the first is the only one before which no other goes; the first of any set, as of the tasks that are
/// ready in-band, is such a member, and there is none only where the set is empty.
pub fn the_best_task_is_first()
    ensures best { (c t : ℕ) (mutexes : List Mutex) (tasks : List Task) → best c mutexes tasks ≡ Option.Some t →
        (task : Task) × ((slice_get tasks t ≡ Option.Some task) × (task.cpu ≡ c) × (task.state ≡ TaskState.OobReady)
        × ((u : ℕ) (other : Task) → slice_get tasks u ≡ Option.Some other → other.cpu ≡ c → other.state ≡ TaskState.OobReady →
        (rank mutexes tasks u ≤ rank mutexes tasks t)
        × (rank mutexes tasks u ≡ rank mutexes tasks t → task.stamp ≤ other.stamp))) }
    ensures none_ready { (c t : ℕ) (mutexes : List Mutex) (tasks : List Task) (task : Task) → best c mutexes tasks ≡ Option.None →
        slice_get tasks t ≡ Option.Some task → task.cpu ≡ c → task.state ≢ TaskState.OobReady }
    ensures found { (member : ℕ → Bool) (rank stamp : ℕ → ℕ) (count t : ℕ) → first member rank stamp count ≡ Option.Some t →
        (t < count) × (member t ≡ true) × ((u : ℕ) → u < count → member u ≡ true → goes_before rank stamp u t ≡ false) }
    ensures none_found { (member : ℕ → Bool) (rank stamp : ℕ → ℕ) (count t : ℕ) → first member rank stamp count ≡ Option.None →
        t < count → member t ≡ false }
    ensures only { (member : ℕ → Bool) (rank stamp : ℕ → ℕ) (count t : ℕ) →
        ((u v : ℕ) → u < count → v < count → member u ≡ true → member v ≡ true → stamp u ≡ stamp v → u ≡ v) →
        t < count → member t ≡ true → ((u : ℕ) → u < count → member u ≡ true → goes_before rank stamp u t ≡ false) →
        first member rank stamp count ≡ Option.Some t }
    ensures none { (member : ℕ → Bool) (rank stamp : ℕ → ℕ) (count : ℕ) →
        ((t : ℕ) → t < count → member t ≡ false) → first member rank stamp count ≡ Option.None }
{
    law_runs::finds_first();
}

/// Where the journal is full every event is refused with Full; else an event is refused if and only if a reason of the
/// table applies, and of several the one of least number is reported.
pub fn the_least_refusal_is_returned()
    ensures full { (s : State) (event : Event) → s.boot.capacity ≤ length s.journal → apply s event ≡ Result.Err Refusal.Full }
    ensures told { (s : State) (event : Event) (reason : Refusal) → apply s event ≡ Result.Err reason → reason ≢ Refusal.Full →
        applies event s.board reason ≡ true }
    ensures least { (s : State) (event : Event) (reason other : Refusal) → apply s event ≡ Result.Err reason →
        number_of other < number_of reason → applies event s.board other ≡ false }
    ensures tells { (s : State) (event : Event) (reason : Refusal) → length s.journal < s.boot.capacity →
        applies event s.board reason ≡ true →
        ((other : Refusal) → number_of other < number_of reason → applies event s.board other ≡ false) →
        apply s event ≡ Result.Err reason }
    ensures accepted { (s new : State) (event : Event) (answer : Answer) (reason : Refusal) → apply s event ≡ Result.Ok (new, answer) →
        (applies event s.board reason ≡ false) × (length s.journal < s.boot.capacity) }
    ensures accepts { (s : State) (event : Event) → length s.journal < s.boot.capacity →
        ((reason : Refusal) → applies event s.board reason ≡ false) →
        (new : State) × ((answer : Answer) × (apply s event ≡ Result.Ok (new, answer))) }
{
    law_runs::returns_least();
}
