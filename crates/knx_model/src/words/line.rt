//! What a line is made of.

ghost use Rattle.std.specs.Prelude.{◌≡◌, ◌==◌, ◌&&◌, true, fold, IsTrue, position};
ghost use Rattle.std.specs.List.{list_all, before_first};
ghost use Rattle.std.specs.Str.Lines.{lines};
ghost use Rattle.knx_model.specs.Words.{is_text, is_text_octet, is_plain_octet, without_comment};

use memchr::memchr;

fn is_text_octet(b: u8) -> bool
    ensures { result ≡ is_text_octet b }
{
    b >= 0x20 && b != 0x7F || b == b'\t'
}

fn are_text_octets(line: &[u8]) -> bool
    ensures { result ≡ list_all is_text_octet line.now }
{
    line.iter().all(|b| is_text_octet(*b))
}

/// Whether a line is text: UTF-8 without control characters but tab.
#[tactic(auto, using(crate::proofs::Text::utf8_true, crate::proofs::Text::utf8_false))]
pub fn is_text(line: &[u8]) -> bool
    ensures { result ≡ is_text line.now }
{
    match str::from_utf8(line) {
        Ok(_) => are_text_octets(line),
        Err(_) => false,
    }
}

/// Whether an octet is printable ASCII, a tab or a line feed.
fn is_plain_octet(b: u8) -> bool
    ensures { result ≡ is_plain_octet b }
{
    (b' '..0x7F).contains(&b) || b == b'\t' || b == b'\n'
}

/// Whether a text has no other octets than plain ones. It goes through all of them without a branch.
fn are_plain_octets(octets: &[u8]) -> bool
    ensures { result ≡ fold (λ plain b. plain && is_plain_octet b) true octets.now }
{
    octets
        .iter()
        .fold(true, |plain, b| plain & is_plain_octet(*b))
}

/// Whether a text has no other octets than printable ASCII, tabs and line feeds. Then each of its lines is text; of another text
/// this says nothing.
pub fn has_plain_lines(octets: &[u8]) -> bool
    ensures exactly { result ≡ list_all is_plain_octet octets.now }
    ensures text { IsTrue result → IsTrue (list_all is_text (lines octets.now)) }
{
    are_plain_octets(octets)
}

#[tactic(auto, using(crate::proofs::Cutting::place_of_octet))]
fn comment_at(line: &[u8]) -> Option<usize>
    ensures { result ≡ position (λ b. b == 35) line.now }
{
    memchr(b'#', line)
}

/// A line up to its first `#`.
pub fn without_comment(line: &[u8]) -> &[u8]
    ensures { result.now ≡ without_comment line.now }
{
    match comment_at(line) {
        None => line,
        Some(i) => &line[..i],
    }
}
