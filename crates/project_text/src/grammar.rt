//! How the lines of a text are read: its first line with words tells the version.

ghost use Rattle.std.specs.Prelude.{◌≡◌, ◌≤◌, ◌∷◌, length};
ghost use Rattle.knx_model.specs.Words.{words};
ghost use Rattle.knx_model.specs.Numbers.{number_value};
ghost use Rattle.knx_model.specs.Statements.{is_2, version_told, grammar_of};

use knx_model::{
    Grammar, TextVersion, first_line, first_word, is_word, number_in, without_comment,
};

/// Whether a word is a number that is 2.
fn is_2(word: &[u8]) -> bool
    ensures { result ≡ is_2 (number_value word.now) }
{
    match number_in(word) {
        Some(number) => number == 2,
        None => false,
    }
}

/// The version that a keyword and the words after it tell.
fn version_told(keyword: &[u8], rest: &[u8]) -> TextVersion
    ensures { result ≡ version_told (keyword.now ∷ words rest.now) }
{
    match first_word(rest) {
        None => TextVersion::One,
        Some((number, rest)) => match first_word(rest) {
            Some(_) => TextVersion::One,
            None => {
                if is_word(keyword, b"version") && is_2(number) {
                    TextVersion::Two
                } else {
                    TextVersion::One
                }
            }
        },
    }
}

/// How the lines of a text of at most 4,194,304 octets are read.
pub fn grammar_of(octets: &[u8]) -> Grammar
    requires { length octets.now ≤ 4194304 }
    ensures { result ≡ grammar_of octets.now }
{
    let mut first = 1;
    let mut rest = octets;
    while let Some((text, after)) = first_line(rest) {
        if let Some((keyword, words)) = first_word(without_comment(text)) {
            return Grammar {
                version: version_told(keyword, words),
                first,
            };
        }
        first += 1;
        rest = after;
    }
    Grammar {
        version: TextVersion::One,
        first,
    }
}
