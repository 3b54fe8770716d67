//! The groups of a `link` line.

ghost use Rattle.std.specs.Prelude.{◌≡◌, [], ◌∷◌, ◌++◌, length, OnOk, OnErr};

use crate::address::GroupAddr;
use crate::no_memory::NoMemory;
use std::alloc::Global;
use std::marker::Model;
use std::slice;

/// Groups in their order, at least one. A single one takes no memory.
#[derive(Drop)]
pub struct Groups {
    single: GroupAddr,
    /// All of them, where they are several; in a box, since nearly all lines have one.
    several: Option<Box<Vec<GroupAddr>>>,
}

impl Model for Groups {
    ghost use Rattle.std.specs.Prelude.{List as Seq, option_map};
    ghost use Rattle.knx_model.specs.declared.address.GroupAddr.{GroupAddr as Group};
    ghost use Rattle.knx_model.specs.Groups.{groups_kept};

    ghost Value = { Seq Group };

    ghost view = { λ g. groups_kept g.single (option_map (λ several. several.value.items) g.several) };
}

impl Groups {
    /// One group.
    pub fn one(group: GroupAddr) -> Groups
        ensures { result ≡ group ∷ [] }
    {
        Groups {
            single: group,
            several: None,
        }
    }

    /// The groups.
    pub fn as_slice(&self) -> &[GroupAddr]
        ensures { result.now ≡ self.now }
    {
        match &self.several {
            Some(several) => several.as_slice(),
            None => slice::from_ref(&self.single),
        }
    }

    /// Appends a group. At `Err` nothing has changed.
    pub fn push(&mut self, alloc: Global, group: GroupAddr) -> Result<(), NoMemory>
        ensures ok { OnOk result (self.new ≡ self.old ++ group ∷ []) }
        ensures err { OnErr result (self.new ≡ self.old) }
    {
        match &mut self.several {
            Some(several) => several.push(group)?,
            None => {
                let both = vec![in alloc; self.single, group]?;
                self.several = Some(Box::new(alloc, both)?);
            }
        }
        Ok(())
    }
}
