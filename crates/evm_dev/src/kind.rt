/// The most bytes that a console holds.
pub const CONSOLE_LIMIT: usize = 256;

/// The most words that a mailbox holds.
pub const MAILBOX_LIMIT: usize = 16;

/// What a device is. It has the table of its kind, whatever it is made of.
#[derive(Clone, Copy, Debug, PartialEq, Eq)]
pub enum Kind {
    /// Takes bytes until it is full.
    Console,
    /// Keeps the last words that were put.
    Mailbox,
    /// A level, of which a mask says which bits are watched, and a count that falls with each tick.
    Pins,
}
