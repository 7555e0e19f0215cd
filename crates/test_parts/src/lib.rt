//! Tests of what no script and no packet reaches: ranks above 199 and computed anew, processors and objects that have no queue, tasks that
//! wait for each other, devices, bells, and a thread that hears GDB.
#![tactic(auto)]

#[cfg(test)]
mod bells;
#[cfg(test)]
mod boosts;
#[cfg(test)]
mod devs;
#[cfg(test)]
mod hearing;
#[cfg(test)]
mod ranks;
#[cfg(test)]
mod ready;
#[cfg(test)]
mod waiting;
