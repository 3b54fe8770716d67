//! The search for the objects of a group in the index of the tables.

ghost use Rattle.std.specs.Prelude.{◌≡◌, ℕ, ◌+◌, ◌-◌, ◌*◌, ◌^◌, ◌<◌, ◌≤◌, length, slice_index_or, false, IsTrue};
ghost use Rattle.device_tables.specs.Objects.{holds};
ghost use Rattle.device_tables.specs.Index.{IsSearch, is_paired, how_many};

use crate::index::TableIndex;
use crate::objects::Objects;
use crate::steps::Steps;
use knx_model::GroupAddr;
use std::sync::ledger::{Blank, Ledger};

impl TableIndex {
    /// Whether the group of the pair at a place, and so of each pair before it, is below this one.
    #[tactic(auto, using(crate::proofs::Halves::not_below_from))]
    fn is_below<L: Ledger>(&self, at: usize, group: GroupAddr, steps: &mut Steps<L>) -> bool
        requires { at < length self.now }
        ensures below { IsTrue result → (k : ℕ) (d : ℕ × ℕ) → k ≤ at → (slice_index_or self.now k d).0 < group.raw }
        ensures from { result ≡ false → (k : ℕ) (d : ℕ × ℕ) → at ≤ k → k < length self.now → group.raw ≤ (slice_index_or self.now k d).0 }
        ensures step { steps.new ≡ steps.old + 1 }
    {
        let (of, _) = self.look(at, steps);
        of < group.raw
    }

    /// The place of the first pair whose group isn't below this one, by halves.
    fn first_of<L: Ledger>(&self, group: GroupAddr, steps: &mut Steps<L>) -> usize
        ensures within { result ≤ length self.now }
        ensures below { (k : ℕ) (d : ℕ × ℕ) → k < result → (slice_index_or self.now k d).0 < group.raw }
        ensures from { (k : ℕ) (d : ℕ × ℕ) → result ≤ k → k < length self.now → group.raw ≤ (slice_index_or self.now k d).0 }
        ensures rises { steps.old ≤ steps.new }
        ensures halves { 2 ^ (steps.new - steps.old) ≤ 2 * length self.now + 1 }
    {
        let mut low = 0;
        let mut high = self.len();
        while low < high {
            let middle = low + (high - low) / 2;
            if self.is_below(middle, group, steps) {
                low = middle + 1;
            } else {
                high = middle;
            }
        }
        low
    }

    /// The objects of the pairs of the group, which stand from this place on.
    fn objects_from<L: Ledger>(
        &self,
        first: usize,
        group: GroupAddr,
        steps: &mut Steps<L>,
    ) -> Objects
        requires within { first ≤ length self.now }
        requires below { (k : ℕ) (d : ℕ × ℕ) → k < first → (slice_index_or self.now k d).0 < group.raw }
        requires from { (k : ℕ) (d : ℕ × ℕ) → first ≤ k → k < length self.now → group.raw ≤ (slice_index_or self.now k d).0 }
        ensures objects { (o : ℕ) → holds result o ≡ is_paired self.now group.raw o }
        ensures rises { steps.old ≤ steps.new }
        ensures steps { steps.new ≤ steps.old + how_many result + 1 }
    {
        let mut objects = Objects::none();
        let mut at = first;
        while at < self.len() {
            let (of, object) = self.look(at, steps);
            if of != group.raw {
                return objects;
            }
            objects.insert(object);
            at += 1;
        }
        objects
    }

    /// The objects that are paired with the group. Of n pairs it looks at no more than p + m + 1, where m is the number of objects
    /// found, and p the greatest number of which the power of 2 is at most 2 n + 1.
    pub fn linked<L: Ledger>(&self, group: GroupAddr, steps: &mut Steps<L>) -> Objects
        ensures objects { (o : ℕ) → holds result o ≡ is_paired self.now group.raw o }
        ensures rises { steps.old ≤ steps.new }
        ensures steps { IsSearch (length self.now) (how_many result) (steps.new - steps.old) }
    {
        let first = self.first_of(group, steps);
        self.objects_from(first, group, steps)
    }

    /// The objects that are paired with the group, where nobody counts the steps.
    pub(crate) fn linked_uncounted<L: Ledger>(&self, group: GroupAddr, blank: Blank) -> Objects
        requires name { blank.name ≡ L.name }
        requires parts { blank.parts ≡ L.parts }
        requires some { 0 < blank.parts }
        ensures { (o : ℕ) → holds result o ≡ is_paired self.now group.raw o }
    {
        let mut steps = Steps::<L>::none(blank);
        self.linked(group, &mut steps)
    }
}
