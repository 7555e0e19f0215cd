//! The program, on the system that it runs on.

use crate::command::{PROGRAM, answer_read};
use evm_dev::Device;
use evm_host::{Devices, host_world, memory_refused, words_of};
use evm_room::NoMemory;
use std::sync::Wait;
use std::thread::Threads;

/// Runs the program on the words of its command line, with devices in its machine, and answers the exit status.
///
/// It has no contract: which words std gives, and what its streams did before, no clause can name. What is done with
/// the words, or why there are none, is the contract of `answer_read`, of any system.
pub fn run<D: Device, R: Threads + Wait + Sync>(
    rt: &HostRuntime,
    threads: &R,
    devices: Result<Devices<D>, NoMemory>,
) -> u8 {
    let mut world = host_world(rt);
    match devices {
        Ok(devices) => answer_read(threads, rt.alloc(), words_of(rt), devices, &mut world),
        Err(NoMemory) => memory_refused(PROGRAM, &mut world),
    }
}
