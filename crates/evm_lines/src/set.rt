ghost use Rattle.std.specs.Prelude.{◌≡◌, ◌<◌, ◌≤◌, length, ◌^◌, ◌↔◌, [], ◌∷◌, IsTrue, IfSome, MatchOption};
ghost use Rattle.evm_lines.specs.Lines.{has_line, has_none, least_line, with_line, without_line, word_of, IsLineSet};

use crate::LINES;
use std::marker::Model;

/// A set of interrupt lines, as the list of their numbers in rising order.
#[derive(Clone, Copy, Debug, PartialEq, Eq)]
pub struct LineSet {
    word: u64,
}

impl Model for LineSet {
    ghost use Rattle.std.specs.Prelude.{ℕ, List, ◌<◌, ◌^◌};
    ghost use Rattle.std.proofs.Common.{ap};
    ghost use Rattle.evm_lines.specs.declared.TheConstants.{LINES};
    ghost use Rattle.evm_lines.specs.Lines.{lines_of, word_of};

    ghost Value = { List ℕ };

    ghost view = { λ set. lines_of set.word };

    ghost invariant = { λ set. set.word < 2 ^ LINES };

    ghost inverse = { λ lines. record { word = word_of lines } };

    ghost use Rattle.evm_lines.specs.declared.set.LineSet.TheInside.{Inside};
    ghost use Rattle.evm_lines.specs.Laws.{word_of-lines_of};

    ghost inverse_ok = { λ set h. let make : ℕ → Inside = λ word. record { word = word } in ap make (word_of-lines_of set.word h) };
}

impl LineSet {
    /// No line.
    pub const fn new() -> LineSet
        ensures { result ≡ [] }
    {
        LineSet { word: 0 }
    }

    /// Whether no line is in the set.
    pub fn is_empty(self) -> bool
        ensures test { result ≡ has_none self }
        ensures empty { IsTrue result ↔ (self ≡ []) }
        // it has no more lines than there are
        ensures few { length self ≤ LINES }
    {
        self.word == 0
    }

    /// Whether a line is in the set; no number from [`LINES`] on is.
    pub fn contains(self, line: u8) -> bool
        ensures { result ≡ has_line self line }
    {
        line < LINES && (self.word >> line) & 1 == 1
    }

    /// Adds a line; one that is in the set stays there.
    pub fn insert(&mut self, line: u8)
        requires { line < LINES }
        ensures { self.new ≡ with_line self.old line }
    {
        self.word |= 1 << line;
    }

    /// Takes a line out; where it isn't in the set nothing changes.
    pub fn remove(&mut self, line: u8)
        requires { line < LINES }
        ensures { self.new ≡ without_line self.old line }
    {
        self.word &= !(1 << line);
    }

    /// The line of least number; None exactly for the empty set.
    pub fn first(self) -> Option<u8>
        ensures least { result ≡ least_line self }
        ensures in_range { IfSome result (λ line. line < LINES) }
        ensures set { IsLineSet self }
    {
        if self.word == 0 {
            None
        } else {
            Some(self.word.trailing_zeros() as u8)
        }
    }

    /// Takes the line of least number out; None exactly for the empty set.
    pub fn pop(&mut self) -> Option<u8>
        ensures least { MatchOption result ((self.old ≡ []) × (self.new ≡ [])) (λ line. self.old ≡ line ∷ self.new) }
        ensures in_range { IfSome result (λ line. line < LINES) }
    {
        let line = self.first()?;
        self.remove(line);
        Some(line)
    }

    /// The number whose bit `l` is one exactly for the lines `l` of the set.
    pub fn word(self) -> u64
        ensures value { result ≡ word_of self }
        ensures limit { result < 2 ^ LINES }
        ensures set { IsLineSet self }
    {
        let LineSet { word } = self;
        word
    }
}
