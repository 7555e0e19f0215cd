//! What is written to standard error where the system denies a file.

use evm_command::{answer, program_devices};
use evm_host::{OpenFault, System, World};
use std::alloc::Global;
use std::process::Abort;
use std::sync::Wait;
use std::test::Fail;
use std::thread::Threads;

/// A system whose streams are kept, with one file.
#[derive(Drop)]
struct Kept {
    alloc: Global,
}

impl System for Kept {
    ghost opens = { λ _ _ _ _. Unit {0} };

    ghost creates = { λ _ _ _ _. Unit {0} };

    type Opened = &'static [u8];

    type Created = Vec<u8>;

    type Input = &'static [u8];

    type Output = Vec<u8>;

    type Errors = Vec<u8>;

    fn open(&mut self, path: &str) -> Result<&'static [u8], OpenFault> {
        if path == "p.s" {
            return Ok(b"nop\n");
        }
        Err(fault_of(path))
    }

    fn create(&mut self, path: &str) -> Result<Vec<u8>, OpenFault> {
        if path == "p.elf" {
            return Ok(Vec::new(self.alloc));
        }
        Err(fault_of(path))
    }
}

/// Why there is no file of this name.
fn fault_of(path: &str) -> OpenFault {
    match path {
        "secret" => OpenFault::Denied,
        _ => OpenFault::Other,
    }
}

/// Runs a command line, and compares what is written to standard error.
fn check_errors<R: Abort + Threads + Wait + Sync>(
    rt: &R,
    alloc: Global,
    line: &str,
    wanted: &str,
) -> Result<(), Fail> {
    let mut world = World {
        files: Kept { alloc },
        input: b"",
        output: Vec::new(alloc),
        errors: Vec::new(alloc),
    };
    let mut words = Vec::new(alloc);
    for word in line.split(' ') {
        words.push(String::from_str(alloc, word)?)?;
    }
    let Ok(devices) = program_devices(alloc) else {
        return Err("no memory for devices".into());
    };
    let _ = answer(rt, alloc, words.as_slice(), devices, &mut world);
    assert_eq!(rt; world.errors.as_slice(), wanted.as_bytes(), "{line}");
    Ok(())
}

#[test]
fn files_that_the_system_denies_are_named(rt: HostRuntime) -> Result<(), Fail> {
    for (line, wanted) in [
        (
            "evltool run secret",
            "secret: can't be opened: permission denied\n",
        ),
        ("evltool run tape", "tape: can't be opened\n"),
        (
            "evltool asm p.s secret",
            "secret: can't be created: permission denied\n",
        ),
        ("evltool asm p.s tape", "tape: can't be created\n"),
        ("evltool asm p.s p.elf", ""),
    ] {
        check_errors(&rt, rt.alloc(), line, wanted)?;
    }
    Ok(())
}
