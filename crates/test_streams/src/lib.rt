//! Tests of what no row and no command line can say: readers, writers and allocations that fail, inputs that are too long, images
//! that are loaded again, and texts that no program prints.
#![tactic(auto)]

#[cfg(test)]
mod command;
#[cfg(test)]
mod fakes;
#[cfg(test)]
mod files;
#[cfg(test)]
mod growths;
#[cfg(test)]
mod history;
#[cfg(test)]
mod images;
#[cfg(test)]
mod journals;
#[cfg(test)]
mod loading;
#[cfg(test)]
mod messages;
#[cfg(test)]
mod readings;
#[cfg(test)]
mod room;
#[cfg(test)]
mod runs;
#[cfg(test)]
mod scripts;
#[cfg(test)]
mod sources;
#[cfg(test)]
mod streams;
#[cfg(test)]
mod tracks;
