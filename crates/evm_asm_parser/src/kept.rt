//! What is kept of the lines of a source, so that a line need not be read again.

ghost use Rattle.std.specs.Prelude.{◌≡◌, OnOk, IfErr, [], ◌∷◌, ◌++◌};
ghost use Rattle.evm_asm_parser.specs.Kept.{kept_statement};

use crate::memory::push;
use crate::spot::Spot;
use crate::statement::{Statement, StatementReading};
use evm_room::Refused;
use std::alloc::Global;
use std::marker::Model;

/// The statement of a line that stands at a spot.
#[derive(Clone, Copy, Debug, PartialEq, Eq)]
pub struct Kept {
    pub spot: Spot,
    pub statement: Statement,
}

/// What is kept of each line, in their order: of some lines nothing.
#[derive(Drop)]
pub struct KeptLines {
    lines: Vec<Option<Kept>>,
}

impl Model for KeptLines {
    ghost use Rattle.std.specs.Prelude.{List, Option};
    ghost use Rattle.evm_asm_parser.specs.declared.kept.Kept.{Kept};

    ghost Value = { List (Option Kept) };

    ghost view = { λ k. k.lines.items };
}

impl KeptLines {
    /// Of no line.
    pub fn new(alloc: Global) -> KeptLines
        ensures { result ≡ [] }
    {
        KeptLines {
            lines: Vec::new(alloc),
        }
    }

    /// Keeps one line more: its statement, where that names no label.
    pub fn keep(&mut self, spot: Spot, reading: &StatementReading) -> Result<(), Refused>
        ensures ok { OnOk result (self.new ≡ self.old ++ kept_statement spot reading.now ∷ []) }
        ensures refused { IfErr result (λ asked. asked ≡ 1) }
    {
        let line = match reading {
            Err(_) => None,
            Ok(Statement::Branch { .. } | Statement::Jump { .. }) => None,
            Ok(Statement::LoadAddress { .. }) => None,
            Ok(Statement::One(inst)) => Some(Kept {
                spot,
                statement: Statement::One(*inst),
            }),
            Ok(statement) => Some(Kept {
                spot,
                statement: *statement,
            }),
        };
        push(&mut self.lines, line)
    }

    /// What is kept of each line.
    pub fn lines(&self) -> &[Option<Kept>]
        ensures { result.now ≡ self.now }
    {
        self.lines.as_slice()
    }
}
