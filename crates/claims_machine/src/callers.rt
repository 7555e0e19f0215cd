//! What an ECALL leaves alone of the task that makes it.
ghost use Rattle.std.specs.Prelude.{◌≡◌, ℕ, true, Option, slice_get};
ghost use Rattle.evm_exec.specs.declared.hart.Hart.{Hart};
ghost use Rattle.evm_model.specs.Calls.{call};
ghost use Rattle.evm_model.specs.Good.{is_ready};
ghost use Rattle.evm_model.specs.State.{Parts};
ghost use Rattle.evm_model.specs.declared.task.Task.{Task};
ghost use Rattle.law_runs.specs.Own.{CallerAfter};

/// A task that is ready and makes an ECALL keeps its processor, class, priority, slice, mode bits and deadline unless the
/// table of calls (`may_change`) says that the call changes them, and its stamp if it keeps its state; it is ready still
/// unless the table says that the call changes its state. Of its registers at most a0 changes.
pub fn a_call_changes_of_its_task_what_the_table_says()
    ensures { (c t : ℕ) (k : Parts) (task : Task) (hart : Hart) → slice_get k.tasks t ≡ Option.Some task → is_ready task.state ≡ true →
        slice_get k.harts t ≡ Option.Some hart → CallerAfter t task hart (call c t k) }
{
    law_runs::calls_leave();
}
