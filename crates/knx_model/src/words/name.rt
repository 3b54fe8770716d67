//! Words that are names.

ghost use Rattle.std.specs.Prelude.{◌≡◌, ℕ, ◌↔◌, ◌&&◌, true, fold, List, IsTrue};
ghost use Rattle.knx_model.specs.Numbers.{is_name, is_name_octet};
ghost use Rattle.knx_model.specs.Spells.{SpellsName};
ghost use Rattle.knx_model.specs.Statements.{name_value};

use std::marker::Model;

fn is_name_octet(c: u8) -> bool
    ensures { result ≡ is_name_octet c }
{
    c.is_ascii_alphanumeric() || c == b'_' || c == b'-' || c == b'.'
}

/// Whether all octets of a word are a name's. It goes through all of them without a branch.
fn are_name_octets(word: &[u8]) -> bool
    ensures { result ≡ fold (λ all c. all && is_name_octet c) true word.now }
{
    word.iter().fold(true, |all, c| all & is_name_octet(*c))
}

/// Whether a word is a name.
pub fn is_name_in(word: &[u8]) -> bool
    ensures { result ≡ is_name word.now }
{
    !word.is_empty() && word.len() <= 32 && are_name_octets(word)
}

/// Whether a word is a name: 1 to 32 letters, digits, `_`, `-` and `.`.
pub fn is_name(word: &str) -> bool
    ensures { result ≡ is_name word.now }
{
    is_name_in(word.as_bytes())
}

/// A name, borrowed from the text that it stands in.
#[derive(Drop)]
pub struct Name<'a> {
    octets: &'a [u8],
}

impl<'a> Model for Name<'a> {
    ghost use Rattle.std.specs.Prelude.{List, ℕ};

    ghost Value = { List ℕ };

    ghost view = { λ n. n.octets.now };
}

impl<'a> Name<'a> {
    /// The name that a word is; none where it is no name.
    pub fn of(word: &'a [u8]) -> Option<Name<'a>>
        ensures { result ≡ name_value word.now }
    {
        if is_name_in(word) {
            Some(Name { octets: word })
        } else {
            None
        }
    }

    /// Its octets.
    pub fn as_slice(&self) -> &'a [u8]
        ensures { result.now ≡ self.now }
    {
        self.octets
    }
}

/// What `is_name_in` accepts is just what the grammar spells.
pub fn name_spelled()
    ensures { (word : List ℕ) → IsTrue (is_name word) ↔ SpellsName word }
{}
