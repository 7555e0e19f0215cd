ghost use Rattle.std.specs.Prelude.{◌≡◌};
ghost use Rattle.evm_ram.specs.Width.{bytes_of};

/// How many bytes an access touches.
#[derive(Clone, Copy, Debug, PartialEq, Eq)]
pub enum Width {
    Byte,
    Half,
    Word,
    Double,
}

impl Width {
    /// 1, 2, 4 or 8.
    #[inline(always)]
    pub fn bytes(self) -> u64
        ensures { result ≡ bytes_of self }
    {
        match self {
            Width::Byte => 1,
            Width::Half => 2,
            Width::Word => 4,
            Width::Double => 8,
        }
    }
}
