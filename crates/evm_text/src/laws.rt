ghost use Rattle.evm_text.specs.Laws.{ReadsDecimals, ReadsHexadecimals, ReadsPairs, ReadsWords, PadsToCount, DividesDecimals, DividesHexadecimals, PadsWithZeros};
ghost use Rattle.evm_text.specs.Fields.{ReadsDecimalThen, ReadsDecimalLast, ReadsU8Then, ReadsU8Last, ReadsHexadecimalThen, ReadsHexadecimalLast, ReadsPairsLast};
ghost use Rattle.evm_text.specs.Rows.{ReadsValues};

/// A decimal number is read if and only if its numeral comes next and no other digit follows.
pub fn reads_decimals()
    ensures { ReadsDecimals }
{}

/// So is a hexadecimal one.
pub fn reads_hexadecimals()
    ensures { ReadsHexadecimals }
{}

/// 1 to 64 bytes are read if and only if their pairs of digits come next and no other digit follows.
pub fn reads_pairs()
    ensures { ReadsPairs }
{}

/// A word is read if and only if it comes next.
pub fn reads_words()
    ensures { ReadsWords }
{}

/// A padded number has exactly as many digits as are asked for.
pub fn pads_to_count()
    ensures { PadsToCount }
{}

/// A decimal number with a blank is read if and only if both come next.
pub fn reads_decimal_then()
    ensures { ReadsDecimalThen }
{}

/// The bytes are a decimal number if and only if they are its numeral.
pub fn reads_decimal_last()
    ensures { ReadsDecimalLast }
{}

/// A decimal number below 256 with a blank is read if and only if both come next.
pub fn reads_u8_then()
    ensures { ReadsU8Then }
{}

/// The bytes are a decimal number below 256 if and only if they are its numeral.
pub fn reads_u8_last()
    ensures { ReadsU8Last }
{}

/// A hexadecimal number with a blank is read if and only if both come next.
pub fn reads_hexadecimal_then()
    ensures { ReadsHexadecimalThen }
{}

/// The bytes are a hexadecimal number if and only if they are its numeral.
pub fn reads_hexadecimal_last()
    ensures { ReadsHexadecimalLast }
{}

/// The bytes are pairs of digits if and only if they are those of 1 to 64 bytes.
pub fn reads_pairs_last()
    ensures { ReadsPairsLast }
{}

/// A decimal numeral is that of the number divided by ten, and then the remainder's digit.
pub fn divides_decimals()
    ensures { DividesDecimals }
{}

/// A hexadecimal numeral is that of the number divided by sixteen, and then the remainder's digit.
pub fn divides_hexadecimals()
    ensures { DividesHexadecimals }
{}

/// A padded number is its numeral behind zeros, where the digits are enough for it.
pub fn pads_with_zeros()
    ensures { PadsWithZeros }
{}

/// The values of any fields are read if and only if their texts come next with one blank between them.
pub fn reads_values()
    ensures { ReadsValues }
{}
