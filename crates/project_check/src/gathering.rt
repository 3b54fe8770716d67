//! What is known of a whole text, and its devices, are gathered beside its links, which are sorted meanwhile.

ghost use Rattle.std.specs.Prelude.{List, IfOk};
ghost use Rattle.std.specs.Thread.{IsSync};
ghost use Rattle.knx_model.specs.declared.catalogue.model.NamedModel.{NamedModel};
ghost use Rattle.knx_model.specs.declared.project.Statement.{Statement as Stated};
ghost use Rattle.project_check.specs.Devices.{AreDevices};
ghost use Rattle.project_check.specs.Knowing.{AreNamed, Gathers};
ghost use Rattle.project_check.specs.Links.{AreSorted};

use crate::devices::ascending_devices;
use crate::links::{SortedLinks, sorted_links_in_threads};
use crate::named_models::NamedModels;
use crate::rules::Gathered;
use knx_model::{IndAddr, Statement};
use std::alloc::{AllocError, Global};
use std::thread::{Threads, join};

/// A text of which something is to be known. It is a trait so that the type which threads share names no lifetime: else nothing would
/// be known of what they find.
trait Source {
    /// What is gathered of it, but for its links.
    type Gathered: Drop + Send;

    /// The statements of the text.
    ghost text: { Self → List Stated };

    /// What is gathered is known of the text.
    ghost is_known: { Self → Self.Gathered → Type 0 };

    /// What is known of the text but of its links.
    fn gathered(&self, alloc: Global) -> Result<Self::Gathered, AllocError>
        ensures { IfOk result (is_known self.now) };

    /// Its devices, ascending.
    fn devices(&self, alloc: Global) -> Result<Vec<IndAddr>, AllocError>
        ensures { IfOk result (λ devices. AreDevices devices.items (text self.now)) };

    /// Its links, which are sorted in threads.
    fn links<R: Threads + Sync>(&self, rt: &R, alloc: Global) -> Result<SortedLinks, AllocError>
        requires { IsSync R.row }
        ensures { IfOk result (λ links. AreSorted links (text self.now)) };
}

/// A text, and the models that its `device` lines name.
#[derive(Clone, Copy)]
struct Text<'b, 'a> {
    models: &'b NamedModels<'a>,
    statements: &'a [Statement<'a>],
}

impl<'b, 'a> Source for Text<'b, 'a> {
    type Gathered = Gathered<'b, 'a>;

    ghost text = { λ text. text.statements.now };

    ghost is_known = { λ text gathered. (catalogue : List NamedModel) → AreNamed catalogue text.models.now text.statements.now → Gathers catalogue gathered text.statements.now };

    fn gathered(&self, alloc: Global) -> Result<Gathered<'b, 'a>, AllocError> {
        Gathered::of(alloc, self.models, self.statements)
    }

    fn devices(&self, alloc: Global) -> Result<Vec<IndAddr>, AllocError> {
        ascending_devices(alloc, self.statements)
    }

    fn links<R: Threads + Sync>(&self, rt: &R, alloc: Global) -> Result<SortedLinks, AllocError> {
        sorted_links_in_threads(rt, alloc, self.statements)
    }
}

/// What is gathered of a text and its devices, and its links, side by side.
fn side_by_side<R: Threads + Sync, S: Source + Sync>(
    rt: &R,
    alloc: Global,
    source: &S,
) -> (
    Result<S::Gathered, AllocError>,
    Result<Vec<IndAddr>, AllocError>,
    Result<SortedLinks, AllocError>,
)
    ensures gathered { IfOk result.0 (S.is_known source.now) }
    ensures devices { IfOk result.1 (λ devices. AreDevices devices.items (S.text source.now)) }
    ensures links { IfOk result.2 (λ links. AreSorted links (S.text source.now)) }
{
    let ((gathered, devices), links) = join(
        rt,
        || -> (
            Result<S::Gathered, AllocError>,
            Result<Vec<IndAddr>, AllocError>,
        )
            requires { IsSync S.row }
            ensures gathered { IfOk result.0 (S.is_known source.entry.now) }
            ensures devices { IfOk result.1 (λ devices. AreDevices devices.items (S.text source.entry.now)) }
        { (source.gathered(alloc), source.devices(alloc)) },
        || -> Result<SortedLinks, AllocError>
            requires { IsSync R.row × IsSync S.row }
            ensures { IfOk result (λ links. AreSorted links (S.text source.entry.now)) }
        { source.links(rt, alloc) },
    );
    (gathered, devices, links)
}

/// What is known of a text but of its links, its devices, and its links. The first two are gathered in a thread of its own, the links are
/// sorted in as many as there are processors.
pub fn gathered_in_threads<'b, 'a, R: Threads + Sync>(
    rt: &R,
    alloc: Global,
    models: &'b NamedModels<'a>,
    statements: &'a [Statement<'a>],
) -> (
    Result<Gathered<'b, 'a>, AllocError>,
    Result<Vec<IndAddr>, AllocError>,
    Result<SortedLinks, AllocError>,
)
    ensures gathered { IfOk result.0 (λ gathered. (catalogue : List NamedModel) → AreNamed catalogue models.now statements.now → Gathers catalogue gathered statements.now) }
    ensures devices { IfOk result.1 (λ devices. AreDevices devices.items statements.now) }
    ensures links { IfOk result.2 (λ links. AreSorted links statements.now) }
{
    let text = Text { models, statements };
    side_by_side(rt, alloc, &text)
}
