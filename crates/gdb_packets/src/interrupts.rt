//! Whether a stop of what goes on is asked for.

/// Someone who may ask, while a program goes on, that it be stopped.
pub trait Interrupts {
    ghost use Rattle.std.specs.Prelude.{Bool};

    // What a look at one state may answer. Nothing else is known of this relation, so that only a look at this very state shows it.
    ghost asks: { Self → Bool → Type 0 };

    /// Whether a stop is asked for now.
    fn is_asked(&self) -> bool
        ensures { asks self.now result };
}

/// Bytes that are all there ask for no stop.
impl Interrupts for &[u8] {
    ghost use Rattle.std.specs.Prelude.{◌≡◌, false};

    ghost asks = { λ bytes answer. answer ≡ false };

    fn is_asked(&self) -> bool {
        false
    }
}
