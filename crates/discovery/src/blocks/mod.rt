//! The blocks that tell of a gateway (ISO 22510, Core, DIB). Those of other types are skipped by their length.

ghost use Rattle.std.specs.Prelude.{◌≡◌, ◌+◌, ◌≤◌, ◌++◌, length, IfSome, IfNone};
ghost use Rattle.discovery.specs.declared.about.About.{About as Told};
ghost use Rattle.discovery.specs.Discovery.{octets_of, HasAbout, HasFields, blocks_of};

mod information;
mod service_families;
mod sort;
mod walk;

use crate::about::About;
use knx_model::Datagram;
use sort::Sort;

/// What blocks tell of a gateway; None exactly where they are no blocks, or the device information or the service families are not there just
/// once, or the families are no pairs.
#[tactic(auto, using(crate::proofs::Telling::tells, crate::proofs::Telling::no_information, crate::proofs::Telling::no_families, crate::proofs::Telling::no_pairs, crate::proofs::Telling::information_length))]
pub fn about_in(octets: &[u8]) -> Option<About>
    ensures some { IfSome result (λ about. HasAbout octets.now about) }
    ensures none { IfNone result (¬ ((about : Told) × HasAbout octets.now about)) }
{
    let content = walk::only(octets, Sort::Information)?;
    let families = walk::only(octets, Sort::Families)?;
    let families = service_families::read(families)?;
    Some(information::read(content, families))
}

/// Appends the device information and the service families.
#[tactic(auto, using(crate::proofs::Telling::two_pushed))]
pub fn push_about(out: &mut Datagram, about: &About)
    requires room { length out.old ≤ 8 }
    requires families { length about.now.families ≤ 64 }
    ensures pushed { out.new ≡ out.old ++ octets_of (blocks_of about.now) }
    ensures most { length out.new ≤ length out.old + 184 }
    ensures fields { HasFields about.now }
{
    information::push(out, about);
    service_families::push(out, &about.families);
}
