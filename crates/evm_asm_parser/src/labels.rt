//! The labels of a source, in its order.

ghost use Rattle.std.specs.Prelude.{◌≡◌, ◌≤◌, ◌+◌, OnOk, IfErr, slice_get, List, [], ◌∷◌, ◌++◌, None, length};
ghost use Rattle.std.specs.Option.{option_map};
ghost use Rattle.evm_asm_lexer.specs.Names.{named};

use crate::memory::copied;
use crate::spot::Spot;
use evm_room::{Refused, grow_map};
use indexmap::IndexMap;
use std::alloc::Global;
use std::marker::Model;

/// The labels of a source, each with its spot.
#[derive(Drop)]
pub struct Labels {
    spots: IndexMap<Vec<u8>, Spot>,
}

impl Model for Labels {
    ghost use Rattle.std.specs.Prelude.{ℕ, List, map};
    ghost use Rattle.evm_asm_parser.specs.declared.spot.Spot.{Spot};

    ghost Value = { List (List ℕ × Spot) };

    ghost view = { λ l. map (λ e. (e.0.items, e.1)) l.spots.entries };
}

impl Labels {
    /// No labels.
    pub fn new(alloc: Global) -> Labels
        ensures { result ≡ [] }
    {
        Labels {
            spots: IndexMap::new(alloc),
        }
    }

    /// The spot of the label of this name.
    pub fn find(&self, name: &[u8]) -> Option<Spot>
        ensures { result ≡ named self.now name.now }
    {
        self.spots.get(name).copied()
    }

    /// The label at a place of their order, from 0, with its spot.
    pub fn at(&self, index: usize) -> Option<(&[u8], Spot)>
        ensures { option_map (λ x. (x.0.now, x.1)) result ≡ slice_get self.now index }
    {
        match self.spots.get_index(index) {
            Some((name, spot)) => Some((name.as_slice(), *spot)),
            None => None,
        }
    }

    /// Adds a label behind the others.
    pub fn add(&mut self, alloc: Global, name: &[u8], spot: Spot) -> Result<(), Refused>
        requires { named self.old name.now ≡ None }
        ensures ok { OnOk result (self.new ≡ self.old ++ (name.now, spot) ∷ []) }
        ensures refused { IfErr result (λ asked. asked ≤ length name.now + 1) }
    {
        let name = copied(alloc, name)?;
        grow_map(&mut self.spots, 1)?;
        match self.spots.insert(name, spot) {
            Ok(_) => Ok(()),
            Err(_) => unreachable!(),
        }
    }
}
