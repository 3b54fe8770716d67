//! Words that are addresses.

ghost use Rattle.std.specs.Prelude.{◌≡◌, ℕ, List, ◌↔◌, ◌==◌, ◌∷◌, ◌<◌, ◌≤◌, ◌%◌, [], MatchOption, IfSome, position};
ghost use Rattle.std.specs.List.{slice_split, list_all};
ghost use Rattle.std.specs.Char.{digit_value};
ghost use Rattle.std.specs.Option.{option_map, option_and_then, option_or};
ghost use Rattle.knx_model.specs.Spells.{SpellsGroup, SpellsGroupBy, SpellsDevice};
ghost use Rattle.knx_model.specs.declared.address.GroupAddr.{GroupAddr};
ghost use Rattle.knx_model.specs.declared.address.IndAddr.{IndAddr};
ghost use Rattle.knx_model.specs.declared.project.TextVersion.{TextVersion as Version};
ghost use Rattle.knx_model.specs.Addresses.{three, two, group_value, two_levels_value, free_value, group_by, ind_value};
ghost use Rattle.knx_model.specs.Numbers.{numeral, part_value, up_to};

use crate::address::{GroupAddr, IndAddr};
use crate::project::TextVersion;
use crate::words::number::{number_up_to, part_in};

fn place_of(word: &[u8], by: u8) -> Option<usize>
    ensures { result ≡ position (λ b. b == by) word.now }
{
    word.iter().position(|b| *b == by)
}

/// The two sides of the first `by`.
#[tactic(auto, using(crate::proofs::Cutting::cut_found, crate::proofs::Cutting::cut_none))]
fn cut_at(word: &[u8], by: u8) -> Option<(&[u8], &[u8])>
    ensures { MatchOption result (slice_split (λ b. b == by) word.now ≡ word.now ∷ []) (λ x. slice_split (λ b. b == by) word.now ≡ x.0.now ∷ slice_split (λ b. b == by) x.1.now) }
{
    let i = place_of(word, by)?;
    let (front, rest) = word.split_at(i);
    let (_, rest) = rest.split_at(1);
    Some((front, rest))
}

/// The numbers, each up to its most, of a word that is joined of three by `by`.
#[inline(always)]
fn three_parts(word: &[u8], by: u8, most: (u32, u32, u32)) -> Option<(u32, u32, u32)>
    requires { digit_value by ≡ 36 }
    ensures value { result ≡ option_and_then (λ parts. option_and_then (λ a. option_and_then (λ b. option_map (λ c. (a, b, c)) (part_value most.2 parts.2)) (part_value most.1 parts.1)) (part_value most.0 parts.0)) (three (slice_split (λ b. b == by) word.now)) }
    ensures within { IfSome result (λ x. (x.0 ≤ most.0) × (x.1 ≤ most.1) × (x.2 ≤ most.2)) }
{
    let (first, rest) = cut_at(word, by)?;
    // A `by` in what comes after the second one is no digit.
    let (second, third) = cut_at(rest, by)?;
    let first = part_in(most.0, first)?;
    let second = part_in(most.1, second)?;
    let third = part_in(most.2, third)?;
    Some((first, second, third))
}

/// The device that a word names.
#[tactic(auto, unfolding(crate::specs::Addresses::ind_value))]
pub fn ind_in(word: &[u8]) -> Option<IndAddr>
    ensures value { result ≡ ind_value word.now }
    ensures fits { IfSome result (λ d. (0 < d.raw % 256) × (d.raw % 256 < 255)) }
{
    let (area, line, device) = three_parts(word, b'.', (15, 15, 254))?;
    if device == 0 {
        return None;
    }
    Some(IndAddr {
        raw: (area * 4096 + line * 256 + device) as u16,
    })
}

/// The group that a word names.
#[tactic(auto, unfolding(crate::specs::Addresses::group_value))]
pub fn group_in(word: &[u8]) -> Option<GroupAddr>
    ensures value { result ≡ group_value word.now }
    ensures fits { IfSome result (λ g. 0 < g.raw) }
{
    let (main, middle, sub) = three_parts(word, b'/', (31, 7, 255))?;
    let raw = main * 2048 + middle * 256 + sub;
    if raw == 0 {
        return None;
    }
    Some(GroupAddr { raw: raw as u16 })
}

/// The numbers of main and sub in a word that is joined of them by a slash.
fn two_parts(word: &[u8]) -> Option<(u32, u32)>
    ensures value { result ≡ option_and_then (λ parts. option_and_then (λ a. option_map (λ b. (a, b)) (up_to 2047 (numeral 10 4 parts.1))) (part_value 31 parts.0)) (two (slice_split (λ b. b == 47) word.now)) }
    ensures within { IfSome result (λ x. (x.0 ≤ 31) × (x.1 ≤ 2047)) }
{
    let (main, sub) = cut_at(word, b'/')?;
    let main = part_in(31, main)?;
    // A slash in what comes after the first one is no digit.
    let sub = number_up_to(2047, 4, sub)?;
    Some((main, sub))
}

/// The group that a word names in two levels.
#[tactic(auto, unfolding(crate::specs::Addresses::two_levels_value))]
fn two_levels_in(word: &[u8]) -> Option<GroupAddr>
    ensures value { result ≡ two_levels_value word.now }
    ensures fits { IfSome result (λ g. 0 < g.raw) }
{
    let (main, sub) = two_parts(word)?;
    let raw = main * 2048 + sub;
    if raw == 0 {
        return None;
    }
    Some(GroupAddr { raw: raw as u16 })
}

/// The group that a word names by one number.
#[tactic(auto, unfolding(crate::specs::Addresses::free_value))]
fn free_in(word: &[u8]) -> Option<GroupAddr>
    ensures value { result ≡ free_value word.now }
    ensures fits { IfSome result (λ g. 0 < g.raw) }
{
    let raw = number_up_to(65_535, 5, word)?;
    if raw == 0 {
        return None;
    }
    Some(GroupAddr { raw: raw as u16 })
}

/// The group that a word names in three levels, in two levels or free.
fn any_group_in(word: &[u8]) -> Option<GroupAddr>
    ensures value { result ≡ option_or (group_value word.now) (option_or (two_levels_value word.now) (free_value word.now)) }
    ensures fits { IfSome result (λ g. 0 < g.raw) }
{
    if let Some(group) = group_in(word) {
        return Some(group);
    }
    match two_levels_in(word) {
        Some(group) => Some(group),
        None => free_in(word),
    }
}

/// The group that a word names in a project text of this version.
pub fn group_by(version: TextVersion, word: &[u8]) -> Option<GroupAddr>
    ensures value { result ≡ group_by version word.now }
    ensures fits { IfSome result (λ g. 0 < g.raw) }
{
    match version {
        TextVersion::One => group_in(word),
        TextVersion::Two => any_group_in(word),
    }
}

/// The device that a word names; none for a word that isn't an individual address with a device from 1 to 254.
pub fn ind_of(word: &str) -> Option<IndAddr>
    ensures { result ≡ ind_value word.now }
{
    ind_in(word.as_bytes())
}

/// The group that a word names; none for a word that isn't a group address, and for 0/0/0.
pub fn group_of(word: &str) -> Option<GroupAddr>
    ensures { result ≡ group_value word.now }
{
    group_in(word.as_bytes())
}

/// What `group_in` reads is just what the grammar spells.
pub fn group_spelled()
    ensures { (word : List ℕ) (g : GroupAddr) → (group_value word ≡ Some g) ↔ SpellsGroup word g }
{}

/// What `group_by` reads is just what the grammar of each version spells.
pub fn group_by_spelled()
    ensures { (version : Version) (word : List ℕ) (g : GroupAddr) → (group_by version word ≡ Some g) ↔ SpellsGroupBy version word g }
{}

/// What `ind_in` reads is just what the grammar spells.
pub fn ind_spelled()
    ensures { (word : List ℕ) (d : IndAddr) → (ind_value word ≡ Some d) ↔ SpellsDevice word d }
{}
