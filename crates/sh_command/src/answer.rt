//! What a line is answered.

use sh_answers::Page;
use std::alloc::Global;

/// The answer to a line, which grows as commands are done.
#[derive(Drop)]
pub struct LineAnswer {
    pub(crate) alloc: Global,
    /// The number of the line.
    pub(crate) number: u64,
    pub(crate) page: Page,
}

impl LineAnswer {
    /// Nothing is answered yet to the line of this number.
    pub fn new(alloc: Global, number: u64) -> LineAnswer {
        LineAnswer {
            alloc,
            number,
            page: Page::new(alloc),
        }
    }

    /// The text so far.
    pub fn bytes(&self) -> &[u8] {
        self.page.bytes()
    }
}
