//! The test suite of a shell: a case for each line `expect`.

use evm_room::NoMemory;
use sh_answers::push_one;
use std::alloc::Global;
use text_markup::{CaseEnd, Suite};

/// The cases so far, and the files that belong to those that failed.
#[derive(Debug, Drop)]
pub(crate) struct Cases {
    suite: Suite,
    files: Vec<String>,
}

impl Cases {
    /// No case yet, of an image.
    ///
    /// # Errors
    ///
    /// Memory was refused.
    pub(crate) fn new(alloc: Global, image: &str) -> Result<Cases, NoMemory> {
        match Suite::new(alloc, image) {
            Ok(suite) => Ok(Cases {
                suite,
                files: Vec::new(alloc),
            }),
            Err(_) => Err(NoMemory),
        }
    }

    /// Names a file that belongs to each case that fails.
    ///
    /// # Errors
    ///
    /// Memory was refused.
    pub(crate) fn attach(&mut self, alloc: Global, path: &str) -> Result<(), NoMemory> {
        match String::from_str(alloc, path) {
            Ok(path) => push_one(&mut self.files, path),
            Err(_) => Err(NoMemory),
        }
    }

    /// Adds the case of a line; `seen` is what was seen, where something else was expected.
    ///
    /// # Errors
    ///
    /// Memory was refused.
    pub(crate) fn add(
        &mut self,
        alloc: Global,
        number: u64,
        words: &str,
        seen: Option<&str>,
    ) -> Result<(), NoMemory> {
        let Ok(name) = format!(in alloc; "line {number}: expect {words}") else {
            return Err(NoMemory);
        };
        let end = match seen {
            None => CaseEnd::Passed,
            Some(text) => CaseEnd::Failed("differs", text),
        };
        match self.suite.add(name.as_str(), end, self.files.as_slice()) {
            Ok(()) => Ok(()),
            Err(_) => Err(NoMemory),
        }
    }

    /// The whole file.
    ///
    /// # Errors
    ///
    /// Memory was refused.
    pub(crate) fn written(&self, alloc: Global) -> Result<Vec<u8>, NoMemory> {
        match self.suite.written(alloc) {
            Ok(text) => Ok(text),
            Err(_) => Err(NoMemory),
        }
    }
}
