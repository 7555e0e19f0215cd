ghost use Rattle.std.specs.Prelude.{◌≡◌, ℕ, List, slice_get};
ghost use Rattle.evm_dev.specs.Rows.{AreWords, ticked, touched};
ghost use Rattle.evm_dev.specs.declared.kind.Kind.{Kind};

use crate::kind::Kind;
use crate::touch::{Op, Touch};

/// A device. Its kind says what each touch and each tick does to the list of its words; nothing else may happen.
pub trait Device: Send + Drop {
    /// Its kind.
    ghost kind_of: { Self → Kind };

    /// Its words.
    ghost words_of: { Self → List ℕ };

    /// Its kind, which says how many words it may have.
    fn kind(&self) -> Kind
        ensures kind { result ≡ kind_of self.now }
        ensures words { AreWords (kind_of self.now) (words_of self.now) };

    /// The word of a number; None past the last.
    fn words(&self, k: usize) -> Option<u64>
        ensures { result ≡ slice_get (words_of self.now) k };

    /// An access to a register: a fetch, or a put of the value.
    fn touch(&mut self, op: Op, register: u8, value: u64) -> Touch
        ensures kind { kind_of self.new ≡ kind_of self.old }
        ensures words { words_of self.new ≡ (touched (kind_of self.old) op register value (words_of self.old)).words }
        ensures answer { result ≡ (touched (kind_of self.old) op register value (words_of self.old)).touch };

    /// A tick of the machine: whether the device raises its line.
    fn tick(&mut self) -> bool
        ensures kind { kind_of self.new ≡ kind_of self.old }
        ensures words { words_of self.new ≡ (ticked (kind_of self.old) (words_of self.old)).words }
        ensures raise { result ≡ (ticked (kind_of self.old) (words_of self.old)).raise };
}
