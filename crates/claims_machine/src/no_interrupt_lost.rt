//! No interrupt is lost and none is played twice: for every list of events and every line of every processor.
ghost use Rattle.std.specs.Prelude.{◌≡◌, ◌≢◌, ◌+◌, ◌%◌, ◌≤◌, ℕ, List, [], ◌∷◌, false, Option, if◌then◌else◌, slice_get, count_by};
ghost use Rattle.evm_lines.specs.Lines.{has_line};
ghost use Rattle.evm_model.specs.Devices.{Attached};
ghost use Rattle.evm_model.specs.Good.{AreDevices};
ghost use Rattle.evm_model.specs.Load.{start_loaded};
ghost use Rattle.evm_model.specs.Pipes.{Pipe};
ghost use Rattle.evm_model.specs.Replay.{bad_boot, start, replay};
ghost use Rattle.evm_model.specs.State.{State, newest};
ghost use Rattle.evm_model.specs.declared.boot.Boot.{Boot};
ghost use Rattle.evm_model.specs.declared.counts.Counts.{Counts};
ghost use Rattle.evm_model.specs.Event.{Event};
ghost use Rattle.evm_model.specs.declared.event.Event.TheVariants as Event;
ghost use Rattle.law_runs.specs.Balance.{device_count};
ghost use Rattle.law_runs.specs.Nudged.{found_count};
ghost use Rattle.claims_machine.specs.Raising.{NoDevicesLine, raises};
ghost use Rattle.claims_machine.specs.Reached.{HasHadNoEvent, Ran};

/// After every boot, with an image loaded or none, and every list of events, each line of each processor was raised
/// as often as it merged on the wire, is there still, or was received; likewise from any first state whose journal
/// is empty and whose pipes are idle.
pub fn no_line_is_lost_on_its_wire()
    ensures ran { (boot : Boot) (s : State) (c l : ℕ) (pipe : Pipe) (n : Counts) → Ran boot s →
        slice_get s.board.parts.pipes c ≡ Option.Some pipe →
        slice_get pipe.counts l ≡ Option.Some n →
        n.raised ≡ n.merged + (if has_line pipe.wire l then 1 else 0) + n.received }
    ensures fresh { (s : State) (events : List Event) (c l : ℕ) (pipe : Pipe) (n : Counts) → HasHadNoEvent s →
        slice_get (replay s events).board.parts.pipes c ≡ Option.Some pipe → slice_get pipe.counts l ≡ Option.Some n →
        n.raised ≡ n.merged + (if has_line pipe.wire l then 1 else 0) + n.received }
    // worked: line 5 is raised twice, merges once, and is on the wire; then a Step receives it
    ensures on_the_wire { (ram : ℕ) (pipe : Pipe) (n : Counts) →
        slice_get (replay (start [] (newest 1 ram 8)) (Event.Raise 0 5 ∷ Event.Raise 0 5 ∷ [])).board.parts.pipes 0 ≡ Option.Some pipe →
        slice_get pipe.counts 5 ≡ Option.Some n →
        (n.raised ≡ 2) × (n.merged ≡ 1) × (n.received ≡ 0) × (pipe.wire ≡ 5 ∷ []) }
    ensures received { (ram : ℕ) (pipe : Pipe) (n : Counts) →
        slice_get (replay (start [] (newest 1 ram 8)) (Event.Raise 0 5 ∷ Event.Raise 0 5 ∷ Event.Step 0 ∷ [])).board.parts.pipes 0 ≡ Option.Some pipe →
        slice_get pipe.counts 5 ≡ Option.Some n →
        (n.raised ≡ 2) × (n.merged ≡ 1) × (n.received ≡ 1) × (pipe.wire ≡ []) }
{
    law_runs::balance_holds(); // the field wire
}

/// After every boot, with an image loaded or none, and every list of events, each line came to each stage of each
/// processor as often as it merged in the stage's log, is there still, or was played; likewise from any first state
/// whose journal is empty and whose pipes are idle.
pub fn no_line_is_lost_in_a_stage()
    ensures out_of_band { (boot : Boot) (s : State) (c l : ℕ) (pipe : Pipe) (n : Counts) → Ran boot s →
        slice_get s.board.parts.pipes c ≡ Option.Some pipe →
        slice_get pipe.counts l ≡ Option.Some n →
        n.oob.arrivals ≡ n.oob.merged + (if has_line pipe.oob.lines l then 1 else 0) + n.oob.played }
    ensures in_band { (boot : Boot) (s : State) (c l : ℕ) (pipe : Pipe) (n : Counts) → Ran boot s →
        slice_get s.board.parts.pipes c ≡ Option.Some pipe →
        slice_get pipe.counts l ≡ Option.Some n →
        n.in_band.arrivals ≡ n.in_band.merged + (if has_line pipe.in_band.lines l then 1 else 0) + n.in_band.played }
    ensures out_of_band_fresh { (s : State) (events : List Event) (c l : ℕ) (pipe : Pipe) (n : Counts) → HasHadNoEvent s →
        slice_get (replay s events).board.parts.pipes c ≡ Option.Some pipe → slice_get pipe.counts l ≡ Option.Some n →
        n.oob.arrivals ≡ n.oob.merged + (if has_line pipe.oob.lines l then 1 else 0) + n.oob.played }
    ensures in_band_fresh { (s : State) (events : List Event) (c l : ℕ) (pipe : Pipe) (n : Counts) → HasHadNoEvent s →
        slice_get (replay s events).board.parts.pipes c ≡ Option.Some pipe → slice_get pipe.counts l ≡ Option.Some n →
        n.in_band.arrivals ≡ n.in_band.merged + (if has_line pipe.in_band.lines l then 1 else 0) + n.in_band.played }
{
    law_runs::balance_holds(); // the fields oob and in_band
}

/// After every boot, with an image loaded or none, and every list of events, what a processor received came to a
/// stage: lines 0 and 1 to the out-of-band one, from which the timer's goes on in-band each time it is played and the
/// request to reschedule never does, and each other line to one of the two; likewise from any first state whose journal
/// is empty and whose pipes are idle.
pub fn what_is_received_comes_to_a_stage()
    ensures timer { (boot : Boot) (s : State) (c : ℕ) (pipe : Pipe) (n : Counts) → Ran boot s →
        slice_get s.board.parts.pipes c ≡ Option.Some pipe →
        slice_get pipe.counts 0 ≡ Option.Some n →
        (n.received ≡ n.oob.arrivals) × (n.in_band.arrivals ≡ n.oob.played) }
    ensures request { (boot : Boot) (s : State) (c : ℕ) (pipe : Pipe) (n : Counts) → Ran boot s →
        slice_get s.board.parts.pipes c ≡ Option.Some pipe →
        slice_get pipe.counts 1 ≡ Option.Some n → (n.received ≡ n.oob.arrivals) × (n.in_band.arrivals ≡ 0) }
    ensures others { (boot : Boot) (s : State) (c l : ℕ) (pipe : Pipe) (n : Counts) → Ran boot s → 2 ≤ l →
        slice_get s.board.parts.pipes c ≡ Option.Some pipe →
        slice_get pipe.counts l ≡ Option.Some n → n.received ≡ n.oob.arrivals + n.in_band.arrivals }
    ensures timer_fresh { (s : State) (events : List Event) (c : ℕ) (pipe : Pipe) (n : Counts) → HasHadNoEvent s →
        slice_get (replay s events).board.parts.pipes c ≡ Option.Some pipe → slice_get pipe.counts 0 ≡ Option.Some n →
        (n.received ≡ n.oob.arrivals) × (n.in_band.arrivals ≡ n.oob.played) }
    ensures request_fresh { (s : State) (events : List Event) (c : ℕ) (pipe : Pipe) (n : Counts) → HasHadNoEvent s →
        slice_get (replay s events).board.parts.pipes c ≡ Option.Some pipe → slice_get pipe.counts 1 ≡ Option.Some n →
        (n.received ≡ n.oob.arrivals) × (n.in_band.arrivals ≡ 0) }
    ensures others_fresh { (s : State) (events : List Event) (c l : ℕ) (pipe : Pipe) (n : Counts) → 2 ≤ l → HasHadNoEvent s →
        slice_get (replay s events).board.parts.pipes c ≡ Option.Some pipe → slice_get pipe.counts l ≡ Option.Some n →
        n.received ≡ n.oob.arrivals + n.in_band.arrivals }
{
    law_runs::balance_holds(); // the field routes
}

/// After every boot, with whichever devices and an image loaded or none, and every list of events, each line of a processor
/// but line 1, which processors raise on one another, and on processor 0 those of the devices that are there, was raised by
/// as many events as the journal has that raise it there; likewise from any first state whose journal is empty and whose
/// pipes are idle.
pub fn raised_as_often_as_the_journal_says()
    ensures ran { (boot : Boot) (s : State) (c l : ℕ) (pipe : Pipe) (n : Counts) → Ran boot s → l ≢ 1 →
        NoDevicesLine c l s.board.memory.devices →
        slice_get s.board.parts.pipes c ≡ Option.Some pipe →
        slice_get pipe.counts l ≡ Option.Some n →
        n.raised ≡ count_by (raises c l) s.journal }
    ensures fresh { (s : State) (events : List Event) (c l : ℕ) (pipe : Pipe) (n : Counts) → l ≢ 1 → HasHadNoEvent s →
        NoDevicesLine c l (replay s events).board.memory.devices →
        slice_get (replay s events).board.parts.pipes c ≡ Option.Some pipe → slice_get pipe.counts l ≡ Option.Some n →
        n.raised ≡ count_by (raises c l) (replay s events).journal }
{
    law_runs::balance_holds(); // the field raised
}

/// After every boot, with whichever devices and an image loaded or none, and every list of events, each line of a processor
/// but line 1 was raised by as many events as the journal has that raise it there, and by as many accepted events as a
/// device raised it in: a Tick by which it does, or a step, or single step, of an instruction that touches the device so;
/// likewise from any first state whose journal is empty and whose pipes are idle.
pub fn a_device_raises_its_line()
    ensures booted { (devices : List Attached) (boot : Boot) (events : List Event) (c l : ℕ) (pipe : Pipe) (n : Counts) → l ≢ 1 →
        slice_get (replay (start devices boot) events).board.parts.pipes c ≡ Option.Some pipe → slice_get pipe.counts l ≡ Option.Some n →
        n.raised ≡ count_by (raises c l) (replay (start devices boot) events).journal + device_count c l (start devices boot) events }
    ensures loaded { (devices : List Attached) (byte : ℕ → ℕ) (entry : ℕ) (boot : Boot) (events : List Event) (c l : ℕ) (pipe : Pipe) (n : Counts) → l ≢ 1 →
        slice_get (replay (start_loaded devices byte entry boot) events).board.parts.pipes c ≡ Option.Some pipe → slice_get pipe.counts l ≡ Option.Some n →
        n.raised ≡ count_by (raises c l) (replay (start_loaded devices byte entry boot) events).journal + device_count c l (start_loaded devices byte entry boot) events }
    ensures fresh { (s : State) (events : List Event) (c l : ℕ) (pipe : Pipe) (n : Counts) → l ≢ 1 → HasHadNoEvent s →
        slice_get (replay s events).board.parts.pipes c ≡ Option.Some pipe → slice_get pipe.counts l ≡ Option.Some n →
        n.raised ≡ count_by (raises c l) (replay s events).journal + device_count c l s events }
{
    law_runs::balance_holds(); // the clauses raised
}

/// After every boot whose numbers are inside their limits, with an image loaded or none, and every list of events, line 1
/// of a processor was raised by as many events as the journal has that name it, and by as many accepted steps of other
/// processors as left this one with a better out-of-band task than its current one, while it was not stalled out-of-band
/// and had no line 1 on its wire.
pub fn line_one_is_raised_for_a_better_task()
    ensures booted { (devices : List Attached) (boot : Boot) (events : List Event) (d : ℕ) (pipe : Pipe) (n : Counts) → AreDevices devices → bad_boot boot ≡ false →
        slice_get (replay (start devices boot) events).board.parts.pipes d ≡ Option.Some pipe → slice_get pipe.counts 1 ≡ Option.Some n →
        n.raised ≡ count_by (raises d 1) (replay (start devices boot) events).journal + found_count d (start devices boot) events }
    ensures loaded { (devices : List Attached) (boot : Boot) (byte : ℕ → ℕ) (entry : ℕ) (events : List Event) (d : ℕ) (pipe : Pipe) (n : Counts) → AreDevices devices → bad_boot boot ≡ false → entry % 4 ≡ 0 →
        slice_get (replay (start_loaded devices byte entry boot) events).board.parts.pipes d ≡ Option.Some pipe → slice_get pipe.counts 1 ≡ Option.Some n →
        n.raised ≡ count_by (raises d 1) (replay (start_loaded devices byte entry boot) events).journal + found_count d (start_loaded devices byte entry boot) events }
{
    law_runs::line_one_is_raised();
}
