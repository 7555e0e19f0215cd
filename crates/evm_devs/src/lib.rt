//! The devices of a machine in the order of their numbers; and those that programs attach: a console, two mailboxes that differ in how
//! they keep their words, and pins.
#![tactic(auto)]

mod any_device;
mod attached;
mod console;
mod copying;
mod devices;
mod mail_list;
mod mail_ring;
mod pins;

pub use any_device::AnyDevice;
pub use attached::Devices;
pub use console::Console;
pub use copying::CopyFrom;
pub use devices::program_devices;
pub use mail_list::MailList;
pub use mail_ring::MailRing;
pub use pins::Pins;
