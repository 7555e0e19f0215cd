ghost use Rattle.std.specs.Prelude.{◌≡◌};
ghost use Rattle.evm_model.specs.Errnos.{refusal_answer};

/// Why a call is refused.
#[derive(Clone, Copy, Debug, PartialEq, Eq)]
pub enum Errno {
    /// The task may not do this now (EPERM, 1).
    NotPermitted,
    /// There is no such task (ESRCH, 3).
    NoSuchTask,
    /// It would have to wait (EAGAIN, 11).
    TryAgain,
    /// There is no number left (ENOMEM, 12).
    NoNumber,
    /// It is so already (EBUSY, 16).
    Busy,
    /// An argument is out of range, or names nothing (EINVAL, 22).
    Invalid,
    /// The lock would never be had (EDEADLK, 35).
    Deadlock,
    /// No call has this number (ENOSYS, 38).
    NoSuchCall,
    /// The deadline has passed (ETIMEDOUT, 110).
    TimedOut,
}

impl Errno {
    /// What a0 is then: Linux's number, negated, modulo 2^64.
    pub fn answer(self) -> u64
        ensures { result ≡ refusal_answer self }
    {
        match self {
            Errno::NotPermitted => 0u64.wrapping_sub(1),
            Errno::NoSuchTask => 0u64.wrapping_sub(3),
            Errno::TryAgain => 0u64.wrapping_sub(11),
            Errno::NoNumber => 0u64.wrapping_sub(12),
            Errno::Busy => 0u64.wrapping_sub(16),
            Errno::Invalid => 0u64.wrapping_sub(22),
            Errno::Deadlock => 0u64.wrapping_sub(35),
            Errno::NoSuchCall => 0u64.wrapping_sub(38),
            Errno::TimedOut => 0u64.wrapping_sub(110),
        }
    }
}
