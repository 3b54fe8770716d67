//! A text is cut into lines, and a line into words.

ghost use Rattle.std.specs.Prelude.{◌≡◌, ◌<◌, ◌≤◌, [], ◌∷◌, length, take, drop, IfSome, IfNone, MatchOption, position};
ghost use Rattle.std.specs.List.{slice_range, position_or_len};
ghost use Rattle.std.specs.Str.Lines.{lines, strip_carriage_return};
ghost use Rattle.knx_model.specs.Words.{words, is_feed, is_blank, is_not_blank};

use memchr::memchr;

/// A piece of a text, and where to go on.
#[derive(Clone, Copy)]
pub struct Span {
    pub start: usize,
    pub end: usize,
    pub next: usize,
}

#[tactic(auto, using(crate::proofs::Cutting::place_of_octet))]
fn feed_at(octets: &[u8]) -> Option<usize>
    ensures { result ≡ position is_feed octets.now }
{
    memchr(b'\n', octets)
}

fn blank_at(octets: &[u8]) -> Option<usize>
    ensures { result ≡ position is_blank octets.now }
{
    octets.iter().position(|b| *b == b' ' || *b == b'\t')
}

fn letter_at(octets: &[u8]) -> Option<usize>
    ensures { result ≡ position is_not_blank octets.now }
{
    octets.iter().position(|b| *b != b' ' && *b != b'\t')
}

/// How many octets stand before the first line feed, or all.
#[tactic(auto, using(crate::proofs::Cutting::all_from_position, crate::proofs::Cutting::len_from_position))]
fn line_len(octets: &[u8]) -> usize
    ensures value { result ≡ position_or_len is_feed octets.now }
    ensures within { result ≤ length octets.now }
{
    feed_at(octets).unwrap_or(octets.len())
}

/// How many octets stand before the first one that is no blank, or all.
#[tactic(auto, using(crate::proofs::Cutting::all_from_position))]
fn blank_len(octets: &[u8]) -> usize
    ensures value { result ≡ position_or_len is_not_blank octets.now }
    ensures within { result ≤ length octets.now }
{
    match letter_at(octets) {
        Some(len) => len,
        None => octets.len(),
    }
}

/// How many octets stand before the first blank, or all.
#[tactic(auto, using(crate::proofs::Cutting::all_from_position))]
fn word_len(octets: &[u8]) -> usize
    ensures value { result ≡ position_or_len is_blank octets.now }
    ensures within { result ≤ length octets.now }
{
    match blank_at(octets) {
        Some(len) => len,
        None => octets.len(),
    }
}

/// How many octets of a line there are without the carriage return at its end.
fn len_without_return(line: &[u8]) -> usize
    ensures value { take result line.now ≡ strip_carriage_return line.now }
    ensures within { result ≤ length line.now }
{
    let len = line.len();
    if len > 0 && line[len - 1] == b'\r' {
        len - 1
    } else {
        len
    }
}

/// The next line from `at` on, without its end.
pub fn next_line(octets: &[u8], at: usize) -> Option<Span>
    requires { at ≤ length octets.now }
    ensures found { IfSome result (λ s. lines (drop at octets.now) ≡ slice_range octets.now s.start s.end ∷ lines (drop s.next octets.now)) }
    ensures within { IfSome result (λ s. (s.start ≡ at) × (s.start ≤ s.end) × (s.end ≤ s.next) × (at < s.next) × (s.next ≤ length octets.now)) }
    ensures none { IfNone result (lines (drop at octets.now) ≡ []) }
{
    let rest = &octets[at..];
    let len = line_len(rest);
    if len < rest.len() {
        let kept = len_without_return(&rest[..len]);
        Some(Span {
            start: at,
            end: at + kept,
            next: at + len + 1,
        })
    } else if len > 0 {
        Some(Span {
            start: at,
            end: octets.len(),
            next: octets.len(),
        })
    } else {
        None
    }
}

/// The next word from `at` on.
pub fn next_word(line: &[u8], at: usize) -> Option<Span>
    requires { at ≤ length line.now }
    ensures found { IfSome result (λ s. words (drop at line.now) ≡ slice_range line.now s.start s.end ∷ words (drop s.next line.now)) }
    ensures within { IfSome result (λ s. (at ≤ s.start) × (s.start < s.end) × (s.end ≤ s.next) × (s.next ≤ length line.now)) }
    ensures none { IfNone result (words (drop at line.now) ≡ []) }
{
    let rest = &line[at..];
    let skipped = blank_len(rest);
    if skipped == rest.len() {
        return None;
    }
    let start = at + skipped;
    let end = start + word_len(&rest[skipped..]);
    Some(Span {
        start,
        end,
        next: end,
    })
}

/// The first line and what comes after it.
pub fn first_line(rest: &[u8]) -> Option<(&[u8], &[u8])>
    ensures first { MatchOption result (lines rest.now ≡ []) (λ x. lines rest.now ≡ x.0.now ∷ lines x.1.now) }
    ensures less { IfSome result (λ x. length x.1.now < length rest.now) }
{
    match next_line(rest, 0) {
        None => None,
        Some(span) => Some((&rest[span.start..span.end], &rest[span.next..])),
    }
}

/// The first word and what comes after it.
pub fn first_word(rest: &[u8]) -> Option<(&[u8], &[u8])>
    ensures { MatchOption result (words rest.now ≡ []) (λ x. words rest.now ≡ x.0.now ∷ words x.1.now) }
{
    match next_word(rest, 0) {
        None => None,
        Some(span) => Some((&rest[span.start..span.end], &rest[span.next..])),
    }
}
