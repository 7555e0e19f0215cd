use evm_asm_lexer::Section;

/// Where a label is: its offset into a section, in bytes.
#[derive(Clone, Copy, Debug, PartialEq, Eq)]
pub struct Spot {
    pub section: Section,
    pub offset: u32,
}
