//! A hunt as a test suite: a case for each kind of failure that is looked for.

use crate::files::{write_file, write_files};
use crate::job::HuntJob;
use crate::words::Options;
use evm_host::{System, World};
use evm_room::{NoMemory, Refused, push_text};
use hunt_search::{Errors, Found, Wanted};
use std::alloc::Global;
use text_markup::{CaseEnd, Suite};

/// The kinds of failures, in the order of their cases.
const KINDS: [&str; 25] = [
    "eperm",
    "esrch",
    "eagain",
    "enomem",
    "ebusy",
    "einval",
    "edeadlk",
    "enosys",
    "etimedout",
    "notice-1",
    "notice-2",
    "notice-3",
    "notice-4",
    "notice-5",
    "ebreak",
    "fault",
    "deadlock",
    "abandoned",
    "demotion",
    "overrun",
    "lost",
    "held",
    "inversion",
    "stuck",
    "order",
];

/// A failure that was shown.
#[derive(Debug, Drop)]
struct Shown {
    kind: &'static str,
    text: String,
}

/// The failures that were shown, and the files that were written for the first of each kind.
#[derive(Drop)]
pub(crate) struct Cases<'a> {
    job: HuntJob<'a>,
    shown: Vec<Shown>,
}

// Whether an error is looked for.
fn looks_for_error(errors: &Errors, kind: &str) -> bool {
    match kind {
        "eperm" => errors.eperm,
        "esrch" => errors.esrch,
        "eagain" => errors.eagain,
        "enomem" => errors.enomem,
        "ebusy" => errors.ebusy,
        "einval" => errors.einval,
        "edeadlk" => errors.edeadlk,
        "enosys" => errors.enosys,
        "etimedout" => errors.etimedout,
        _ => false,
    }
}

// Whether a kind of failure but an error is looked for.
fn looks_for_kind(wanted: &Wanted, orders: bool, kind: &str) -> bool {
    match kind {
        "notice-1" => wanted.demoted_by_call,
        "notice-2" => wanted.demoted_by_fault,
        "notice-3" => wanted.never_ends,
        "notice-4" => wanted.not_owner,
        "notice-5" => wanted.watchdog,
        "ebreak" => wanted.ebreak,
        "fault" => wanted.fault,
        "deadlock" => wanted.deadlock,
        "abandoned" => wanted.abandoned,
        "demotion" => wanted.demotion,
        "overrun" => wanted.overrun,
        "lost" => wanted.lost,
        "held" => wanted.held.is_some(),
        "inversion" => wanted.inversion.is_some(),
        "stuck" => wanted.stuck.is_some(),
        "order" => orders,
        _ => false,
    }
}

// Whether a kind of failure is looked for.
fn looks_for(options: &Options<'_>, kind: &str) -> bool {
    if looks_for_kind(&options.wanted, options.orders, kind) {
        return true;
    }
    match &options.wanted.errors {
        Some(errors) => looks_for_error(errors, kind),
        None => false,
    }
}

// The name of the files of a kind: that of the suite without its ending, and the kind.
fn name_of(alloc: Global, path: &str, kind: &str) -> Result<String, NoMemory> {
    let stem = path.strip_suffix(".xml").unwrap_or(path);
    match format!(in alloc; "{stem}.{kind}") {
        Ok(name) => Ok(name),
        Err(_) => Err(NoMemory),
    }
}

// A case was added, or memory was refused.
fn added(done: Result<(), Refused>) -> Result<(), NoMemory> {
    match done {
        Ok(()) => Ok(()),
        Err(_) => Err(NoMemory),
    }
}

impl<'a> Cases<'a> {
    /// No failure was shown.
    pub(crate) fn new(job: HuntJob<'a>) -> Cases<'a> {
        Cases {
            job,
            shown: Vec::new(job.target.alloc),
        }
    }

    fn alloc(&self) -> Global {
        self.job.target.alloc
    }

    fn has(&self, kind: &str) -> bool {
        for shown in &self.shown {
            if shown.kind == kind {
                return true;
            }
        }
        false
    }

    /// Writes the files of a failure, if it is the first of its kind and there is to be a suite, and returns the status: 0 if they were written.
    ///
    /// # Errors
    ///
    /// Memory was refused.
    pub(crate) fn write_files<S: System>(
        &self,
        kind: &'static str,
        found: &Found,
        seed: u64,
        world: &mut World<S>,
    ) -> Result<u8, NoMemory> {
        let Some(path) = self.job.options.junit else {
            return Ok(0);
        };
        if self.has(kind) {
            return Ok(0);
        }
        let name = name_of(self.alloc(), path, kind)?;
        write_files(&self.job, name.as_str(), found, seed, world)
    }

    /// Adds a failure that was shown by a text.
    ///
    /// # Errors
    ///
    /// Memory was refused.
    pub(crate) fn add(&mut self, kind: &'static str, text: String) -> Result<(), NoMemory> {
        match self.shown.push(Shown { kind, text }) {
            Ok(()) => Ok(()),
            Err(_) => Err(NoMemory),
        }
    }

    // The first line of what was shown of a kind.
    fn message(&self, kind: &str) -> &str {
        for shown in &self.shown {
            if shown.kind == kind
                && let Some(line) = shown.text.as_str().lines().next()
            {
                return line.strip_prefix("# ").unwrap_or(line);
            }
        }
        ""
    }

    // All that was shown of a kind.
    fn text(&self, kind: &str) -> Result<String, Refused> {
        let mut text = String::new(self.alloc());
        for shown in &self.shown {
            if shown.kind == kind {
                push_text(&mut text, shown.text.as_str())?;
            }
        }
        Ok(text)
    }

    // The files of a kind.
    fn files(&self, path: &str, kind: &str) -> Result<Vec<String>, NoMemory> {
        let mut files = Vec::new(self.alloc());
        if kind == "order" {
            return Ok(files);
        }
        let name = name_of(self.alloc(), path, kind)?;
        for ending in ["journal", "script"] {
            let Ok(file) = format!(in self.alloc(); "{name}.{ending}") else {
                return Err(NoMemory);
            };
            if files.push(file).is_err() {
                return Err(NoMemory);
            }
        }
        Ok(files)
    }

    // Adds the case of a kind.
    fn add_case(&self, path: &str, kind: &str, suite: &mut Suite) -> Result<(), NoMemory> {
        if !self.has(kind) {
            let none = Vec::new(self.alloc());
            return added(suite.add(kind, CaseEnd::Passed, none.as_slice()));
        }
        let files = self.files(path, kind)?;
        let Ok(text) = self.text(kind) else {
            return Err(NoMemory);
        };
        let end = CaseEnd::Failed(self.message(kind), text.as_str());
        added(suite.add(kind, end, files.as_slice()))
    }

    // The suite of a hunt.
    fn suite(&self, path: &str) -> Result<Vec<u8>, NoMemory> {
        let options = self.job.options;
        let Ok(mut suite) = Suite::new(self.alloc(), options.image) else {
            return Err(NoMemory);
        };
        for kind in KINDS {
            if looks_for(options, kind) {
                self.add_case(path, kind, &mut suite)?;
            }
        }
        match suite.written(self.alloc()) {
            Ok(bytes) => Ok(bytes),
            Err(_) => Err(NoMemory),
        }
    }

    /// Writes the suite, if there is to be one, and returns the status: 0 if it was written.
    ///
    /// # Errors
    ///
    /// Memory was refused.
    pub(crate) fn write<S: System>(&self, world: &mut World<S>) -> Result<u8, NoMemory> {
        let Some(path) = self.job.options.junit else {
            return Ok(0);
        };
        let bytes = self.suite(path)?;
        Ok(write_file(path, bytes.as_slice(), world))
    }
}
