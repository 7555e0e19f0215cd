//! Who owns a mutex, who waits for it, and how it ranks its owner: the rules that hold after every event, and how a mutex
//! passes on.
ghost use Rattle.std.specs.Prelude.{◌≡◌, ◌≢◌, ◌+◌, ◌<◌, ◌≤◌, ◌⊎◌, ℕ, suc, List, false, Option, slice_get, length};
ghost use Rattle.evm_exec.specs.Registers.{with_register};
ghost use Rattle.evm_exec.specs.declared.hart.Hart.{Hart};
ghost use Rattle.evm_model.specs.Mutexes.{owner, waits_on, boosts};
ghost use Rattle.evm_model.specs.Passing.{hand_over};
ghost use Rattle.evm_model.specs.Ranks.{class_rank, own_rank, rank};
ghost use Rattle.evm_model.specs.State.{State, Parts};
ghost use Rattle.evm_model.specs.Waits.{first_waiter};
ghost use Rattle.evm_model.specs.declared.boot.Boot.{Boot};
ghost use Rattle.evm_model.specs.declared.limits.TheConstants.{MUTEX_LIMIT};
ghost use Rattle.evm_model.specs.declared.mutex.Mutex.{Mutex};
ghost use Rattle.evm_model.specs.declared.mutex.Protocol.{Protocol};
ghost use Rattle.evm_model.specs.declared.task.Task.{Task};
ghost use Rattle.evm_model.specs.declared.task.TaskState.{TaskState};
ghost use Rattle.evm_model.specs.declared.task.Wait.{Wait};
ghost use Rattle.evm_model.specs.Boosts.{greatest, walk};
ghost use Rattle.claims_machine.specs.Reached.{Reached};
ghost use Rattle.claims_machine.specs.Waiting.{WaitsForMutex};

/// After every boot whose numbers are inside their limits, with an image loaded or none, and every list of events: a mutex
/// for which a task waits, by a call that locks it or after it waited for an event, is there, and another task owns it; each owner is a task that is there; and there are 32 mutexes
/// at the most.
pub fn each_waited_mutex_has_an_owner()
    ensures waited { (boot : Boot) (s : State) (u m : ℕ) (task : Task) → Reached boot s →
        slice_get s.board.parts.tasks u ≡ Option.Some task → WaitsForMutex task.state m →
        (t : ℕ) × ((mutex : Mutex) × ((slice_get s.board.parts.mutexes m ≡ Option.Some mutex) × (mutex.owner ≡ Option.Some t)
        × (t < length s.board.parts.tasks) × (t ≢ u))) }
    ensures owners { (boot : Boot) (s : State) (m t : ℕ) (mutex : Mutex) → Reached boot s →
        slice_get s.board.parts.mutexes m ≡ Option.Some mutex → mutex.owner ≡ Option.Some t → t < length s.board.parts.tasks }
    ensures few { (boot : Boot) (s : State) → Reached boot s →
        length s.board.parts.mutexes ≤ MUTEX_LIMIT }
{
    law_rules::rules_hold();
    law_rules::walks_end();
}

/// Likewise: no chain of tasks, each of which waits for a mutex of the next, returns to its start, and none is longer than
/// 64 links. A task waits for the owner of its mutex.
pub fn no_chain_of_waiting_returns()
    ensures returns { (boot : Boot) (s : State) (links t : ℕ) → Reached boot s →
        walk (waits_on s.board.parts.mutexes s.board.parts.tasks) (suc links) t ≢ Option.Some t }
    ensures ends { (boot : Boot) (s : State) (t : ℕ) → Reached boot s →
        walk (waits_on s.board.parts.mutexes s.board.parts.tasks) 65 t ≡ Option.None }
    ensures links { (mutexes : List Mutex) (tasks : List Task) (u t m : ℕ) (task : Task) (mutex : Mutex) →
        slice_get tasks u ≡ Option.Some task → WaitsForMutex task.state m →
        slice_get mutexes m ≡ Option.Some mutex → mutex.owner ≡ Option.Some t → waits_on mutexes tasks u ≡ Option.Some t }
{
    law_rules::rules_hold();
    law_rules::walks_end();
}

/// Likewise: the owner of a mutex of inheritance ranks no lower than each task that waits for it; and a task's rank is its
/// own, or that of a task which it boosts so.
pub fn an_owner_ranks_no_lower_than_its_waiters()
    ensures inherits { (boot : Boot) (s : State) (u t m : ℕ) (task : Task) (mutex : Mutex) → Reached boot s →
        slice_get s.board.parts.tasks u ≡ Option.Some task → WaitsForMutex task.state m →
        slice_get s.board.parts.mutexes m ≡ Option.Some mutex → mutex.protocol ≡ Protocol.Inheritance → mutex.owner ≡ Option.Some t →
        rank s.board.parts.mutexes s.board.parts.tasks u ≤ rank s.board.parts.mutexes s.board.parts.tasks t }
    ensures one_of_them { (boot : Boot) (s : State) (t : ℕ) → Reached boot s →
        t < length s.board.parts.tasks →
        (rank s.board.parts.mutexes s.board.parts.tasks t ≡ own_rank s.board.parts.mutexes s.board.parts.tasks t)
        ⊎ ((u : ℕ) × ((u < length s.board.parts.tasks) × (boosts s.board.parts.mutexes s.board.parts.tasks u ≡ Option.Some t)
        × (rank s.board.parts.mutexes s.board.parts.tasks t ≡ rank s.board.parts.mutexes s.board.parts.tasks u))) }
    ensures boosters { (mutexes : List Mutex) (tasks : List Task) (u t : ℕ) → boosts mutexes tasks u ≡ Option.Some t →
        (m : ℕ) × ((task : Task) × ((mutex : Mutex) × ((slice_get tasks u ≡ Option.Some task) × (WaitsForMutex task.state m)
        × (slice_get mutexes m ≡ Option.Some mutex) × (mutex.protocol ≡ Protocol.Inheritance) × (mutex.owner ≡ Option.Some t)))) }
{
    law_rules::rules_hold();
    law_rules::ranks_settle();
}

/// Likewise: another round of boosts changes no rank, and there are no other ranks that none changes.
pub fn ranks_are_the_only_settled_ones()
    ensures settled { (boot : Boot) (s : State) (t : ℕ) → Reached boot s →
        t < length s.board.parts.tasks →
        rank s.board.parts.mutexes s.board.parts.tasks t
        ≡ greatest (boosts s.board.parts.mutexes s.board.parts.tasks) (rank s.board.parts.mutexes s.board.parts.tasks) t
        (own_rank s.board.parts.mutexes s.board.parts.tasks t) (length s.board.parts.tasks) }
    ensures only { (boot : Boot) (s : State) (other : ℕ → ℕ) (t : ℕ) → Reached boot s →
        ((u : ℕ) → u < length s.board.parts.tasks →
        other u ≡ greatest (boosts s.board.parts.mutexes s.board.parts.tasks) other u
        (own_rank s.board.parts.mutexes s.board.parts.tasks u) (length s.board.parts.tasks)) →
        t < length s.board.parts.tasks → other t ≡ rank s.board.parts.mutexes s.board.parts.tasks t }
{
    law_rules::rules_hold();
    law_rules::ranks_settle();
}

/// A task never ranks below its class and priority, nor below the ceiling of a mutex that it owns: its own rank is one of
/// these. A task that owns no mutex ranks as its class and priority say.
pub fn a_rank_is_never_below_its_own()
    ensures own { (mutexes : List Mutex) (tasks : List Task) (t : ℕ) → own_rank mutexes tasks t ≤ rank mutexes tasks t }
    ensures class { (mutexes : List Mutex) (tasks : List Task) (t : ℕ) (task : Task) → slice_get tasks t ≡ Option.Some task →
        class_rank task.class task.priority ≤ own_rank mutexes tasks t }
    ensures ceiling { (mutexes : List Mutex) (tasks : List Task) (t m priority : ℕ) (mutex : Mutex) →
        slice_get mutexes m ≡ Option.Some mutex → mutex.protocol ≡ Protocol.Ceiling priority → mutex.owner ≡ Option.Some t →
        100 + priority ≤ own_rank mutexes tasks t }
    ensures one_of_them { (mutexes : List Mutex) (tasks : List Task) (t : ℕ) (task : Task) → slice_get tasks t ≡ Option.Some task →
        (own_rank mutexes tasks t ≡ class_rank task.class task.priority)
        ⊎ ((m : ℕ) × ((mutex : Mutex) × ((priority : ℕ) × ((slice_get mutexes m ≡ Option.Some mutex)
        × (mutex.protocol ≡ Protocol.Ceiling priority) × (mutex.owner ≡ Option.Some t) × (own_rank mutexes tasks t ≡ 100 + priority))))) }
    ensures alone { (mutexes : List Mutex) (tasks : List Task) (t : ℕ) (task : Task) → slice_get tasks t ≡ Option.Some task →
        ((m : ℕ) → owner mutexes m ≢ Option.Some t) → rank mutexes tasks t ≡ class_rank task.class task.priority }
{
    law_rules::ranks_settle();
}

/// A mutex passes on to the first that waits for it: no other that waits for it ranks higher, nor as high with a lesser
/// stamp. That task owns it then, locked once, is ready out-of-band, and its call answers 0, or, where it waited for an event
/// before, the answer that it keeps; where none waits for it, it is free. No other task, no other register or pc, no other
/// mutex, no processor, no pipe and no console changes.
pub fn a_mutex_passes_to_the_first_waiter()
    ensures waits { (m t : ℕ) (k : Parts) → first_waiter (Wait.Lock m) k ≡ Option.Some t →
        (task : Task) × ((slice_get k.tasks t ≡ Option.Some task) × (WaitsForMutex task.state m)
        × ((u : ℕ) (other : Task) → slice_get k.tasks u ≡ Option.Some other → WaitsForMutex other.state m →
        (rank k.mutexes k.tasks u ≤ rank k.mutexes k.tasks t)
        × (rank k.mutexes k.tasks u ≡ rank k.mutexes k.tasks t → task.stamp ≤ other.stamp))) }
    ensures none_waits { (m u : ℕ) (k : Parts) (other : Task) → first_waiter (Wait.Lock m) k ≡ Option.None →
        slice_get k.tasks u ≡ Option.Some other → WaitsForMutex other.state m → ⊥ }
    ensures passes { (m t : ℕ) (k : Parts) (mutex : Mutex) (task : Task) → first_waiter (Wait.Lock m) k ≡ Option.Some t →
        slice_get k.mutexes m ≡ Option.Some mutex → slice_get k.tasks t ≡ Option.Some task →
        (slice_get (hand_over m k).mutexes m ≡ Option.Some (record mutex { owner = Option.Some t; count = 1 }))
        × (slice_get (hand_over m k).tasks t ≡ Option.Some (record task { stamp = k.stamps; deadline = 0; state = TaskState.OobReady })) }
    ensures answers { (m t : ℕ) (k : Parts) (hart : Hart) (task : Task) → first_waiter (Wait.Lock m) k ≡ Option.Some t → slice_get k.harts t ≡ Option.Some hart →
        slice_get k.tasks t ≡ Option.Some task → task.state ≡ TaskState.Waits (Wait.Lock m) →
        slice_get (hand_over m k).harts t ≡ Option.Some (record hart { regs = with_register hart.regs 10 0 }) }
    ensures keeps { (m t answer : ℕ) (k : Parts) (hart : Hart) (task : Task) → first_waiter (Wait.Lock m) k ≡ Option.Some t → slice_get k.harts t ≡ Option.Some hart →
        slice_get k.tasks t ≡ Option.Some task → task.state ≡ TaskState.Waits (Wait.Reacquire m answer) →
        slice_get (hand_over m k).harts t ≡ Option.Some (record hart { regs = with_register hart.regs 10 answer }) }
    ensures other_tasks { (m u : ℕ) (k : Parts) → first_waiter (Wait.Lock m) k ≢ Option.Some u →
        (slice_get (hand_over m k).tasks u ≡ slice_get k.tasks u) × (slice_get (hand_over m k).harts u ≡ slice_get k.harts u) }
    ensures other_mutexes { (m n : ℕ) (k : Parts) → n ≢ m → slice_get (hand_over m k).mutexes n ≡ slice_get k.mutexes n }
    ensures rest { (m : ℕ) (k : Parts) →
        hand_over m k ≡ record k { harts = (hand_over m k).harts; tasks = (hand_over m k).tasks; mutexes = (hand_over m k).mutexes; stamps = (hand_over m k).stamps } }
    ensures frees { (m : ℕ) (k : Parts) (mutex : Mutex) → first_waiter (Wait.Lock m) k ≡ Option.None → slice_get k.mutexes m ≡ Option.Some mutex →
        (slice_get (hand_over m k).mutexes m ≡ Option.Some (record mutex { owner = Option.None; count = 0 }))
        × ((hand_over m k).tasks ≡ k.tasks) }
{
    law_runs::finds_first();
}
