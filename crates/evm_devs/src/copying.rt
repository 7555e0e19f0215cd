//! Devices that take over the words of others.

ghost use Rattle.std.specs.Prelude.{◌≡◌};

use evm_dev::Device;

/// A device that can have the words of another of its kind.
pub trait CopyFrom: Device {
    /// Its words are those of the other. Takes no memory.
    fn copy_from(&mut self, other: &Self)
        requires { Self.kind_of self.old ≡ Self.kind_of other.now }
        ensures kind { Self.kind_of self.new ≡ Self.kind_of self.old }
        ensures words { Self.words_of self.new ≡ Self.words_of other.now };
}
