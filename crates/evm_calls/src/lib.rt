//! The calls of both kernels: what a task asks for by an ECALL. Each kind of object has a module; a call's number and its
//! stage are those of `Call`. And what the calls share: how one is refused, and how its task waits.
#![tactic(auto)]

pub mod actions;
pub mod call;
pub mod clock;
pub mod console;
pub mod deadlines;
pub mod events;
pub mod flags;
pub mod lines;
pub mod mutexes;
pub mod policies;
pub mod refused;
pub mod semaphores;
pub mod stages;
pub mod tasks;
pub mod timers;
pub mod waits;
