ghost use Rattle.std.specs.Prelude.{⊤, [], ◌∷◌, codes};

use bitflags::{Flag, Flags};

/// Which of its own mistakes a task gets notices of (EVL, "Thread mode bits").
#[derive(Clone, Copy, Debug, PartialEq, Eq)]
pub struct Mode {
    /// The sum of the bits that are on.
    pub bits: u8,
}

impl Mode {
    /// A notice when it is demoted.
    pub const T_WOSS: Mode = Mode { bits: 1 };

    /// A notice when it locks or unlocks wrongly.
    pub const T_WOLI: Mode = Mode { bits: 2 };

    const FLAGS: &'static [Flag<Mode>] = &[
        Flag {
            name: "T_WOSS",
            value: Mode::T_WOSS,
        },
        Flag {
            name: "T_WOLI",
            value: Mode::T_WOLI,
        },
    ];
}

impl Flags for Mode {
    type Bits = u8;

    ghost exact = { ⊤ };

    ghost table = { (codes "T_WOSS", 1) ∷ (codes "T_WOLI", 2) ∷ [] };

    ghost set_of = { λ m. m.bits };

    fn flags<'a>() -> &'a [Flag<Mode>] {
        Mode::FLAGS
    }

    fn bits(&self) -> u8 {
        self.bits
    }

    fn from_bits_retain(bits: u8) -> Mode {
        Mode { bits }
    }
}
