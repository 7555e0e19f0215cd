//! Laws of the table of devices. A call does nothing.

ghost use Rattle.std.specs.Prelude.{◌≡◌, ◌≢◌, ◌<◌, ◌≤◌, ℕ, List, true, Some, IsSome, slice_get};
ghost use Rattle.evm_dev.specs.Rows.{AreWords, register_count, ticked, touched};
ghost use Rattle.evm_dev.specs.Touched.{untouched};
ghost use Rattle.evm_dev.specs.declared.kind.Kind.{Kind};
ghost use Rattle.evm_dev.specs.declared.kind.Kind.TheVariants as kinds;
ghost use Rattle.evm_dev.specs.declared.touch.Op.{Op};
ghost use Rattle.evm_dev.specs.declared.touch.Op.TheVariants as ops;

/// A touch of a register that the kind lacks changes nothing, and has no answer. A touch of any other register has one.
pub fn missing_registers_do_nothing()
    ensures missing { (kind : Kind) (op : Op) (register value : ℕ) (words : List ℕ) → AreWords kind words →
        register_count kind ≤ register → touched kind op register value words ≡ untouched words }
    ensures there { (kind : Kind) (op : Op) (register value : ℕ) (words : List ℕ) → AreWords kind words →
        register < register_count kind → IsSome (touched kind op register value words).touch.answer }
{}

/// The words of a device stay words that its kind may have.
pub fn words_stay_of_their_kind()
    ensures touched { (kind : Kind) (op : Op) (register value : ℕ) (words : List ℕ) → AreWords kind words →
        AreWords kind (touched kind op register value words).words }
    ensures ticked { (kind : Kind) (words : List ℕ) → AreWords kind words → AreWords kind (ticked kind words).words }
{}

/// A touch raises only if it is a put of register 0 of a mailbox or of pins. A tick raises only if the count of pins is 1.
pub fn what_raises()
    ensures touched { (kind : Kind) (op : Op) (register value : ℕ) (words : List ℕ) →
        (touched kind op register value words).touch.raise ≡ true → (op ≡ ops.Put) × (register ≡ 0) × (kind ≢ kinds.Console) }
    ensures ticked { (kind : Kind) (words : List ℕ) →
        (ticked kind words).raise ≡ true → (kind ≡ kinds.Pins) × (slice_get words 2 ≡ Some 1) }
{}
