//! What a track shows of what is seen of the machine.

use evm_model::{Stage, Task, TaskState, Wait};
use run_marks::{Lane, Observation, Running};
use trace_records::{State, Track};

/// The state of the out-of-band stage of a processor, and that of its in-band stage, which is idle where it runs no task.
pub(crate) fn stage_states(lane: &Lane) -> (Option<State>, Option<State>) {
    match lane.running {
        None => (None, Some(State::Idle)),
        Some(running) => match running.stage {
            Stage::OutOfBand => (Some(State::Task(running.task)), None),
            Stage::InBand => (None, Some(State::Task(running.task))),
        },
    }
}

/// The track of a processor that shows something: that of the stage on which it runs a task, else that of its in-band stage.
pub(crate) fn current_track(observation: &Observation, cpu: u8) -> Track {
    match running_at(observation, cpu) {
        None => Track::InBand(cpu),
        Some(running) => match running.stage {
            Stage::OutOfBand => Track::OutOfBand(cpu),
            Stage::InBand => Track::InBand(cpu),
        },
    }
}

fn running_at(observation: &Observation, cpu: u8) -> Option<Running> {
    match observation.lanes.get(usize::from(cpu)) {
        None => None,
        Some(lane) => lane.running,
    }
}

fn runs(observation: &Observation, cpu: u8, task: u8) -> bool {
    match running_at(observation, cpu) {
        None => false,
        Some(running) => running.task == task,
    }
}

fn wait_state(wait: Wait) -> State {
    match wait {
        Wait::Line(line) => State::Line(line),
        Wait::Lock(mutex) => State::Mutex(mutex),
        Wait::Reacquire { mutex, .. } => State::Retaking(mutex),
        Wait::Semaphore(semaphore) => State::Semaphore(semaphore),
        Wait::Event(event) => State::Event(event),
        Wait::Flags(group) => State::Flags(group),
        Wait::Sleep => State::Sleep,
        Wait::Timer(timer) => State::Timer(timer),
    }
}

/// The state of a task.
pub(crate) fn task_state(observation: &Observation, number: u8, task: &Task) -> State {
    match task.state {
        TaskState::InReady | TaskState::OobReady if runs(observation, task.cpu, number) =>
            State::Running,
        TaskState::InReady => State::InBand,
        TaskState::OobReady => State::OutOfBand,
        TaskState::Waits(wait) => wait_state(wait),
        TaskState::Exit => State::Ended,
        TaskState::Faulted(_) => State::Faulted,
    }
}
