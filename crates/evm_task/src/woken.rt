//! What becomes of a task whose wait is over, and of one that goes on another processor.

ghost use Rattle.std.specs.Prelude.{◌≡◌};
ghost use Rattle.evm_model.specs.OobCalls.{moved};
ghost use Rattle.evm_model.specs.Waits.{ready_on, stage_of_wait, woken};

use evm_model::{Class, Stage, Task, TaskState, Wait};

// The stage on which a task waits: in-band for a line, else out-of-band.
fn stage_of(wait: Wait) -> Stage
    ensures { result ≡ stage_of_wait wait }
{
    match wait {
        Wait::Line(_) => Stage::InBand,
        _ => Stage::OutOfBand,
    }
}

// The state after a wait on a stage: ready there, but in-band if the task returns.
fn ready_on(stage: Stage, returns: bool) -> TaskState
    ensures { result ≡ ready_on stage returns }
{
    match stage {
        Stage::OutOfBand if !returns => TaskState::OobReady,
        _ => TaskState::InReady,
    }
}

// Its wait is over: it is ready on the stage on which it waited, but in-band if it is weak and owns no mutex.
pub(crate) fn wake(task: &mut Task, owns: bool)
    ensures { task.new ≡ woken owns task.old }
{
    if let TaskState::Waits(wait) = task.state {
        let returns = task.class == Class::Weak && !owns;
        task.state = ready_on(stage_of(wait), returns);
    }
    task.deadline = 0;
}

// It goes on another processor: it is ready there out-of-band, but in-band if it is weak and owns no mutex.
pub(crate) fn migrate(task: &mut Task, cpu: u8, owns: bool)
    ensures { task.new ≡ moved cpu owns task.old }
{
    let returns = task.class == Class::Weak && !owns;
    task.cpu = cpu;
    task.state = ready_on(Stage::OutOfBand, returns);
}
