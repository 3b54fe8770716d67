//! The way along the blocks (ISO 22510, Core, DIB): each is its length, which counts itself and the type, its type and its content.

ghost use Rattle.std.specs.Prelude.{◌≡◌, ◌≢◌, ℕ, ◌≤◌, [], ◌∷◌, ◌++◌, List, length, IfSome, IfNone};
ghost use Rattle.discovery.specs.Discovery.{Block as Dib, block_octets, contents, HasOnly};
ghost use Rattle.discovery.specs.Sorts.{sort_of};
ghost use Rattle.discovery.specs.Walks.{IsFound};

use crate::blocks::sort::Sort;

/// The octets of length and type.
const HEAD: usize = 2;

/// The first block of octets, and what stands behind it.
#[derive(Clone, Copy)]
struct Front<'a> {
    kind: u8,
    content: &'a [u8],
    behind: &'a [u8],
}

/// Takes the first block; None exactly where the octets begin with none.
#[tactic(auto, using(crate::proofs::Walking::is_first, crate::proofs::Walking::too_short, crate::proofs::Walking::too_long))]
fn first_block(octets: &[u8]) -> Option<Front<'_>>
    ensures some { IfSome result (λ f. octets.now ≡ block_octets (record { kind = f.kind; content = f.content.now }) ++ f.behind.now) }
    ensures few { IfSome result (λ f. length f.content.now ≤ 253) }
    ensures none { IfNone result ((block : Dib) (behind : List ℕ) → octets.now ≢ block_octets block ++ behind) }
{
    let [len, kind, rest @ ..] = octets else {
        return None;
    };
    let len = (*len as usize).checked_sub(HEAD)?;
    if rest.len() < len {
        return None;
    }
    Some(Front {
        kind: *kind,
        content: &rest[..len],
        behind: &rest[len..],
    })
}

/// What was found of one sort.
#[derive(Clone, Copy)]
enum Found<'a> {
    Nothing,
    One(&'a [u8]),
    Several,
}

/// What is found with one block more.
#[tactic(auto, using(crate::proofs::Walking::found_other, crate::proofs::Walking::found_first, crate::proofs::Walking::found_more))]
fn with_block<'a>(found: Found<'a>, sort: Sort, block: Front<'a>) -> Found<'a>
    requires { length block.content.now ≤ 253 }
    ensures { (seen : List (List ℕ)) → IsFound seen found.entry → IsFound (seen ++ contents (sort_of sort) (record { kind = block.entry.kind; content = block.entry.content.now } ∷ [])) result }
{
    if !sort.takes(block.kind, block.content) {
        return found;
    }
    match found {
        Found::Nothing => Found::One(block.content),
        Found::One(_) | Found::Several => Found::Several,
    }
}

/// The content of the one block of a sort; None exactly where the octets aren't blocks, one after another, or not just one is of this sort.
#[tactic(auto, using(crate::proofs::Walking::begins, crate::proofs::Walking::further, crate::proofs::Walking::breaks_off, crate::proofs::Walking::ends_one, crate::proofs::Walking::ends_otherwise))]
pub fn only(octets: &[u8], sort: Sort) -> Option<&[u8]>
    ensures some { IfSome result (λ content. HasOnly (sort_of sort) octets.now content.now) }
    ensures few { IfSome result (λ content. length content.now ≤ 253) }
    ensures none { IfNone result (¬ ((content : List ℕ) × HasOnly (sort_of sort) octets.now content)) }
{
    let mut found = Found::Nothing;
    let mut rest = octets;
    while !rest.is_empty() {
        let block = first_block(rest)?;
        rest = block.behind;
        found = with_block(found, sort, block);
    }
    match found {
        Found::One(content) => Some(content),
        Found::Nothing | Found::Several => None,
    }
}
