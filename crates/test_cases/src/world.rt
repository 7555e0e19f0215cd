//! The files of the folder, and streams that are kept.

use evm_command::host_world;
use evm_host::{Host, OpenFault, System, World};
use std::fs::File;

/// The files of the system, with streams that are kept.
#[derive(Drop)]
pub(crate) struct Kept<'a> {
    files: Host<'a>,
}

impl System for Kept<'_> {
    ghost opens = { λ _ _ _ _. Unit {0} };

    ghost creates = { λ _ _ _ _. Unit {0} };

    type Opened = File;

    type Created = File;

    type Input = File;

    type Output = Vec<u8>;

    type Errors = Vec<u8>;

    fn open(&mut self, path: &str) -> Result<File, OpenFault> {
        self.files.open(path)
    }

    fn create(&mut self, path: &str) -> Result<File, OpenFault> {
        self.files.create(path)
    }
}

/// A world whose standard input is a file.
pub(crate) fn world_of(rt: &HostRuntime, input: File) -> World<Kept<'_>> {
    World {
        files: Kept {
            files: host_world(rt).files,
        },
        input,
        output: Vec::new(rt.alloc()),
        errors: Vec::new(rt.alloc()),
    }
}
