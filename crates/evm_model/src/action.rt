/// What an interrupt line does when it is played out-of-band.
#[derive(Clone, Copy, Debug, PartialEq, Eq)]
pub enum Action {
    /// Nothing: the line is of the in-band stage.
    Nothing,
    /// It puts one into a semaphore.
    Puts(u8),
    /// It posts its own bit to a flag group.
    Posts(u8),
}
