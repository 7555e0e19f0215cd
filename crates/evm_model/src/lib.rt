//! The machine as its users believe it: its state, its events, and what each event does. A task ranks by its own priority and by each task
//! that it keeps waiting.
#![tactic(auto)]

mod action;
mod boot;
mod call;
mod counts;
mod errno;
mod event;
mod fault;
mod limits;
mod mode;
mod mutex;
mod notice;
mod processor;
mod profile;
mod refusal;
mod stage;
mod task;
mod timer;

pub use action::Action;
pub use boot::Boot;
pub use call::{Call, Outcome};
pub use counts::{Counts, Passage};
pub use errno::Errno;
pub use event::{Answer, Block, Event, NoBytes, copied, kinds_add_up};
pub use fault::Fault;
pub use limits::{
    BREAKPOINT_LIMIT, CAPACITY_LIMIT, CONSOLE_LIMIT, DEVICE_BASE, DEVICE_LIMIT, DEVICE_LINE,
    DEVICE_SPAN, EVENT_LIMIT, FIRST_LINES, FLAG_BITS, FLAGS_LIMIT, FLAGS_WORD_LIMIT,
    MIGRATION_PROFILE, MODE_LIMIT, MUTEX_LIMIT, NOTICE_LIMIT, POKE_LIMIT, PRIORITY_LIMIT,
    PROCESSOR_LIMIT, PROFILE_LIMIT, RAM_LEAST, RAM_UNIT, REGISTERS_PER_DEVICE,
    SEMAPHORE_COUNT_LIMIT, SEMAPHORE_LIMIT, SLICE, TASK_LIMIT, TIMER_LIMIT, TIMER_SPAN_LIMIT,
    WATCHDOG_LIMIT, WIDE_PROFILE,
};
pub use mode::Mode;
pub use mutex::{Mutex, Protocol};
pub use notice::{Notice, NoticeKind};
pub use processor::Processor;
pub use profile::Profile;
pub use refusal::Refusal;
pub use stage::{Stage, StageLog};
pub use task::{Class, Task, TaskState, Wait};
pub use timer::Timer;
