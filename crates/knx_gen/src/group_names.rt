//! The names of the groups, which the statements of a project borrow.

ghost use Rattle.std.specs.Prelude.{◌≡◌, ◌≤◌, IfOk};
ghost use Rattle.knx_gen.specs.Generated.{group_name, group_names};

use knx_model::{List, Name, NoMemory, Octets, put_number};
use std::alloc::Global;
use std::marker::Model;

/// How many groups a project has. Their raw addresses are 1 to this number.
pub const GROUPS: u16 = 2003;

/// The names of the groups of every project that is made from a number.
#[derive(Drop)]
pub struct GroupNames {
    names: List<Octets>,
}

impl Model for GroupNames {
    ghost use Rattle.std.specs.Prelude.{◌≡◌, List as Seq, ℕ};
    ghost use Rattle.knx_gen.specs.Generated.{group_names};

    ghost Value = { Seq (Seq ℕ) };

    ghost view = { λ g. g.names };

    ghost invariant = { λ g. g.names ≡ group_names 2003 };
}

/// `g` and the number.
fn group_name(alloc: Global, raw: u16) -> Result<Octets, NoMemory>
    ensures { IfOk result (λ name. name ≡ group_name raw) }
{
    let mut name = Octets::from_slice(alloc, b"g")?;
    put_number(alloc, &mut name, u64::from(raw))?;
    Ok(name)
}

impl GroupNames {
    /// All names.
    pub fn new(alloc: Global) -> Result<GroupNames, NoMemory>
        ensures { IfOk result (λ made. made ≡ group_names 2003) }
    {
        let mut names = List::new(alloc);
        for place in 0..GROUPS {
            let name = group_name(alloc, place + 1)?;
            names.push(name)?;
        }
        Ok(GroupNames { names })
    }

    /// The name of a group of the project.
    pub fn name_of(&self, raw: u16) -> Name<'_>
        requires from_1 { 1 ≤ raw }
        requires to_2003 { raw ≤ 2003 }
        ensures { result ≡ group_name raw }
    {
        let names = self.names.as_slice();
        let name = &names[usize::from(raw) - 1];
        Name::of(name.as_slice()).unwrap()
    }
}
