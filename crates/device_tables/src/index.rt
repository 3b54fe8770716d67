//! An index of the objects that the tables of a running device link to each group.

ghost use Rattle.std.specs.Prelude.{◌≡◌, ℕ, ◌+◌, ◌<◌, ◌≤◌, ◌||◌, ◌&&◌, [], length, slice_index_or, IfOk, vec_len, vec_capacity};
ghost use Rattle.std.specs.List.{AllPairs};
ghost use Rattle.knx_model.specs.Acts.{addresses, is_pair_of, is_object_number, is_linked_in};
ghost use Rattle.device_tables.specs.Index.{StandsBefore, IsIndexOf, is_paired};

use crate::steps::Steps;
use crate::table::{address_at, pair_at};
use knx_model::NoMemory;
use std::alloc::Global;
use std::marker::Model;
use std::sync::ledger::Ledger;

/// The most pairs of an association table of 8,192 octets.
const MOST_PAIRS: usize = 2047;

/// The pairs of a group's raw value and an object that two tables link, each once, ascending by group and then by object.
#[derive(Drop)]
pub struct TableIndex {
    pairs: Vec<(u16, u8)>,
}

impl Model for TableIndex {
    ghost use Rattle.std.specs.Prelude.{List, ℕ, ◌≤◌, vec_capacity};
    ghost use Rattle.std.specs.List.{AllPairs};
    ghost use Rattle.device_tables.specs.Index.{StandsBefore};
    ghost use Rattle.device_tables.specs.declared.index.TheConstants.{MOST_PAIRS};

    ghost Value = { List (ℕ × ℕ) };

    ghost view = { λ t. t.pairs.items };

    ghost invariant = { λ t. AllPairs StandsBefore t.pairs.items × (MOST_PAIRS ≤ vec_capacity t.pairs) };
}

impl TableIndex {
    /// Room for the pairs of any tables of a device, and no pair yet.
    pub fn room(alloc: Global) -> Result<TableIndex, NoMemory>
        ensures { IfOk result (λ made. made ≡ []) }
    {
        let pairs = Vec::with_capacity(alloc, MOST_PAIRS)?;
        Ok(TableIndex { pairs })
    }

    /// Takes the pairs of these tables in place of those that it had. The tables are any octets: the addresses needn't ascend, and one
    /// may stand twice. It takes no memory.
    pub fn fill(&mut self, addr: &[u8], assoc: &[u8])
        requires { length assoc.now ≤ 8192 }
        ensures { IsIndexOf addr.now assoc.now self.new }
    {
        self.pairs.clear();
        collect(&mut self.pairs, addr, assoc);
        self.pairs.sort_unstable();
        self.pairs.dedup();
    }

    /// How many pairs there are.
    pub(crate) fn len(&self) -> usize
        ensures { result ≡ length self.now }
    {
        self.pairs.len()
    }

    /// The pair at a place. To look at it is a step, and nothing else reads a pair.
    pub(crate) fn look<L: Ledger>(&self, at: usize, steps: &mut Steps<L>) -> (u16, u8)
        requires { at < length self.now }
        ensures pair { result ≡ slice_index_or self.now at result }
        ensures ascending { AllPairs StandsBefore self.now }
        ensures step { steps.new ≡ steps.old + 1 }
    {
        steps.take();
        self.pairs[at]
    }
}

/// Puts the group and the object of a pair of the association table behind the others, where it links one.
fn put(index: &mut Vec<(u16, u8)>, addr: &[u8], pair: (u16, u16))
    requires { vec_len index.old < vec_capacity index.old }
    ensures pairs { (g o : ℕ) → is_paired index.new.items g o ≡ (is_paired index.old.items g o || (is_object_number o && is_pair_of (addresses addr.now) g o pair)) }
    ensures len { vec_len index.new ≤ vec_len index.old + 1 }
    ensures capacity { vec_capacity index.old ≤ vec_capacity index.new }
{
    let (place, object) = pair;
    if object == 0 || object > 255 {
        return;
    }
    if let Some(group) = address_at(addr, place) {
        let _ = index.push((group, object as u8));
    }
}

/// Puts what each pair of the association table links behind the others, of which there are none yet.
fn collect(index: &mut Vec<(u16, u8)>, addr: &[u8], assoc: &[u8])
    requires empty { index.old.items ≡ [] }
    requires room { MOST_PAIRS ≤ vec_capacity index.old }
    requires len { length assoc.now ≤ 8192 }
    ensures exactly { (g o : ℕ) → is_paired index.new.items g o ≡ is_linked_in addr.now assoc.now g o }
    ensures capacity { vec_capacity index.old ≤ vec_capacity index.new }
{
    let mut at = 0;
    while let Some(pair) = pair_at(assoc, at) {
        put(index, addr, pair);
        at += 1;
    }
}
