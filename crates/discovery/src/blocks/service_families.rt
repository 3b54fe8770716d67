//! The supported service families (ISO 22510, Core): pairs of a family and its version.

ghost use Rattle.std.specs.Prelude.{◌≡◌, ◌≢◌, ℕ, ◌+◌, ◌≤◌, ◌++◌, List, length, IfSome, IfNone};
ghost use Rattle.discovery.specs.Discovery.{pair_octets, block_octets, families_of};

use crate::families::Families;
use knx_model::Datagram;

/// SUPP_SVC_FAMILIES.
pub const TYPE: u8 = 0x02;

/// Reads pairs of family and version; None exactly where the last octet stands alone.
#[tactic(auto, using(crate::proofs::Pairs::pair_more, crate::proofs::Pairs::odd_is_none))]
pub fn read(content: &[u8]) -> Option<Families>
    requires { length content.now ≤ 253 }
    ensures some { IfSome result (λ families. content.now ≡ pair_octets families) }
    ensures none { IfNone result ((pairs : List (ℕ × ℕ)) → content.now ≢ pair_octets pairs) }
{
    let mut families = Families::new();
    let mut rest = content;
    while let [family, version, behind @ ..] = rest {
        families.push(*family, *version);
        rest = behind;
    }
    if rest.is_empty() {
        Some(families)
    } else {
        None
    }
}

/// Appends the service families.
#[tactic(auto, using(crate::proofs::Pairs::pair_octets_length, crate::proofs::Pairs::pushes))]
pub fn push(out: &mut Datagram, families: &Families)
    requires room { length out.old ≤ 100 }
    requires families { length families.now ≤ 64 }
    ensures pushed { out.new ≡ out.old ++ block_octets (families_of families.now) }
    ensures most { length out.new ≤ length out.old + 130 }
{
    let pairs = families.as_slice();
    out.extend(&[2 + 2 * pairs.len() as u8, TYPE]);
    for pair in pairs {
        out.extend(&[pair.0, pair.1]);
    }
}
