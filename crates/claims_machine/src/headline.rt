//! A machine is what its journal says.
ghost use Rattle.std.specs.Prelude.{◌≡◌, ◌++◌, ℕ, List, [], ◌∷◌};
ghost use Rattle.evm_model.specs.Devices.{Attached};
ghost use Rattle.evm_model.specs.Replay.{start, replay};
ghost use Rattle.evm_model.specs.State.{State, newest};
ghost use Rattle.evm_model.specs.declared.boot.Boot.{Boot};
ghost use Rattle.evm_model.specs.Event.{Event};
ghost use Rattle.evm_model.specs.declared.event.Event.TheVariants as Event;

/// Events and then others make of every machine what all of them make in one list: a run may be cut anywhere.
pub fn a_run_may_be_cut_anywhere()
    ensures { (s : State) (first rest : List Event) → replay s (first ++ rest) ≡ replay (replay s first) rest }
{
    law_runs::replays_join();
}

/// After every boot, with whichever devices, and every list of events, refused ones among them, the events of the machine's journal, played
/// from that boot with these devices, make the same machine; likewise from any first state whose journal is empty.
pub fn a_machine_is_its_journals_replay()
    ensures booted { (devices : List Attached) (boot : Boot) (events : List Event) →
        replay (start devices boot) (replay (start devices boot) events).journal ≡ replay (start devices boot) events }
    ensures from_any { (first : State) (events : List Event) → first.journal ≡ [] →
        replay first (replay first events).journal ≡ replay first events }
    ensures at_first { (devices : List Attached) (boot : Boot) → replay (start devices boot) (start devices boot).journal ≡ start devices boot }
    // worked: two ticks are two ticks of the clock
    ensures two_ticks { (ram : ℕ) →
        (replay (start [] (newest 1 ram 8)) (Event.Tick ∷ Event.Tick ∷ [])).board.parts.ticks ≡ 2 }
    // worked: the second of two events finds the journal full, and leaves no trace
    ensures one_fits { (ram : ℕ) →
        (replay (start [] (newest 1 ram 1)) (Event.Tick ∷ Event.Tick ∷ [])).journal ≡ Event.Tick ∷ [] }
{
    law_runs::stays_replay();
    law_runs::starts_as_replay();
}
