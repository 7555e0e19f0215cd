ghost use Rattle.evm_debug.specs.LineReading.{ReadsLines};

/// A line is read if and only if the bytes spell it.
pub fn reads_lines()
    ensures { ReadsLines }
{}
