//! The models of a catalogue.

ghost use Rattle.std.specs.Prelude.{◌≡◌, [], All, Some, None, IfSome, IfNone};
ghost use Rattle.knx_model.specs.Models.{IsModel, IsNamedModel, in_catalogue};

use crate::catalogue::model::{Model as DeviceModel, NamedModel};
use crate::lists::List;
use std::alloc::Global;
use std::marker::Model;

/// Models by name; each breaks no rule.
#[derive(Drop)]
pub struct Catalogue {
    models: List<NamedModel>,
}

impl Model for Catalogue {
    ghost use Rattle.std.specs.Prelude.{List as Seq, All};
    ghost use Rattle.knx_model.specs.declared.catalogue.model.NamedModel.{NamedModel};
    ghost use Rattle.knx_model.specs.Models.{IsNamedModel};

    ghost Value = { Seq NamedModel };

    ghost view = { λ c. c.models };

    ghost invariant = { λ c. All IsNamedModel c.models };
}

impl Catalogue {
    /// A catalogue without models. It takes no memory.
    pub fn empty(alloc: Global) -> Catalogue
        ensures { result ≡ [] }
    {
        Catalogue {
            models: List::new(alloc),
        }
    }

    /// The catalogue of these models.
    pub fn of(models: List<NamedModel>) -> Catalogue
        requires { All IsNamedModel models }
        ensures { result ≡ models }
    {
        Catalogue { models }
    }

    /// The model of a name; none where there is no such model.
    pub fn model(&self, name: &str) -> Option<&DeviceModel>
        ensures some { IfSome result (λ m. in_catalogue self.now name.now ≡ Some m.now) }
        ensures none { IfNone result (in_catalogue self.now name.now ≡ None) }
        ensures good { IfSome result (λ m. IsModel m.now) }
    {
        self.model_in(name.as_bytes())
    }

    /// The same by the octets of a name.
    pub fn model_in(&self, name: &[u8]) -> Option<&DeviceModel>
        ensures some { IfSome result (λ m. in_catalogue self.now name.now ≡ Some m.now) }
        ensures none { IfNone result (in_catalogue self.now name.now ≡ None) }
        ensures good { IfSome result (λ m. IsModel m.now) }
        ensures sound { All IsNamedModel self.now }
    {
        let models = self.models.as_slice();
        for named in models {
            if named.name.as_slice() == name {
                return Some(&named.model);
            }
        }
        None
    }
}
