ghost use Rattle.std.specs.Prelude.{◌≡◌};
ghost use Rattle.evm_dev.specs.Touched.{answer_alone, no_answer};

/// What is done to a register.
#[derive(Clone, Copy, Debug, PartialEq, Eq)]
pub enum Op {
    /// A load.
    Fetch,
    /// A store of a value.
    Put,
}

/// How a device answers an access to a register.
#[derive(Clone, Copy, Debug, PartialEq, Eq)]
pub struct Touch {
    /// None if and only if the device lacks the register.
    pub answer: Option<u64>,
    /// Whether the device raises its line.
    pub raise: bool,
}

impl Touch {
    /// There is no such register.
    pub const NONE: Touch = Touch {
        answer: None,
        raise: false,
    };

    /// An answer, and no interrupt.
    pub fn answer(answer: u64) -> Touch
        ensures { result ≡ answer_alone answer }
    {
        Touch {
            answer: Some(answer),
            raise: false,
        }
    }
}
