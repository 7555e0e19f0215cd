//! Two readings of a line: both are taken, or the first is, or the least of their faults is reported.

use evm_asm_lexer::SourceFaultKind::{self, BadOperand, UnknownName};
use evm_asm_lexer::both;
use evm_asm_parser::also;

type Reading = Result<u8, SourceFaultKind>;

const ONE: Reading = Ok(1);

const TWO: Reading = Ok(2);

const BAD: Reading = Err(BadOperand);

const UNKNOWN: Reading = Err(UnknownName);

#[test]
fn both_are_taken(rt: HostRuntime) {
    assert_eq!(rt; both(ONE, TWO), Ok((1, 2)));
    assert_eq!(rt; both(BAD, TWO), Err(BadOperand));
    assert_eq!(rt; both(ONE, UNKNOWN), Err(UnknownName));
    assert_eq!(rt; both(BAD, UNKNOWN), Err(UnknownName));
}

#[test]
fn the_first_is_taken(rt: HostRuntime) {
    assert_eq!(rt; also(ONE, TWO), ONE);
    assert_eq!(rt; also(ONE, BAD), BAD);
    assert_eq!(rt; also(BAD, UNKNOWN), UNKNOWN);
}
