//! Octets as they are printed.

ghost use Rattle.std.specs.Prelude.{◌≡◌, ◌<◌, ◌++◌, length, take, OnErr, OnOk};
ghost use Rattle.knx_model.specs.Outside.{Appends};
ghost use Rattle.knx_model.specs.TextLines.{hex_digit, hex_octet, hex_text, octets_text, value_text};

use knx_model::{NoMemory, Octets, Value};

/// The digit of a number below 16.
fn hex_digit(n: u8) -> u8
    requires { n < 16 }
    ensures { result ≡ hex_digit n }
{
    if n < 10 { b'0' + n } else { b'A' - 10 + n }
}

/// Appends an octet's two digits.
pub fn put_digits(out: &mut Octets, octet: u8) -> Result<(), NoMemory>
    ensures { Appends (hex_octet octet) out.old out.new result }
{
    out.append(&[hex_digit(octet >> 4), hex_digit(octet & 0x0F)])
}

/// The digits of eight octets.
fn digits_of_eight(octets: [u8; 8]) -> [u8; 16]
    ensures { result ≡ hex_text octets }
{
    let [a, b, c, d, e, f, g, h] = octets;
    [
        hex_digit(a / 16),
        hex_digit(a % 16),
        hex_digit(b / 16),
        hex_digit(b % 16),
        hex_digit(c / 16),
        hex_digit(c % 16),
        hex_digit(d / 16),
        hex_digit(d % 16),
        hex_digit(e / 16),
        hex_digit(e % 16),
        hex_digit(f / 16),
        hex_digit(f % 16),
        hex_digit(g / 16),
        hex_digit(g % 16),
        hex_digit(h / 16),
        hex_digit(h % 16),
    ]
}

/// Appends the digits of octets, eight octets at a time. What stood before stays, also where memory is wanting.
fn put_all_digits(out: &mut Octets, octets: &[u8]) -> Result<(), NoMemory>
    ensures ok { OnOk result (out.new ≡ out.old ++ hex_text octets.now) }
    ensures err { OnErr result (take (length out.old) out.new ≡ out.old) }
{
    let mut rest = octets;
    while let [a, b, c, d, e, f, g, h, next @ ..] = rest {
        out.append(&digits_of_eight([*a, *b, *c, *d, *e, *f, *g, *h]))?;
        rest = next;
    }
    for octet in rest {
        put_digits(out, *octet)?;
    }
    Ok(())
}

/// Appends octets as digits, or `-` for none. Where memory is wanting, nothing is appended.
pub fn put_hex(out: &mut Octets, octets: &[u8]) -> Result<(), NoMemory>
    ensures { Appends (octets_text octets.now) out.old out.new result }
{
    if octets.is_empty() {
        return out.push(b'-');
    }
    let start = out.len();
    let done = put_all_digits(out, octets);
    if done.is_err() {
        out.truncate(start);
    }
    done
}

/// Appends a group value: `s` and two digits, or its octets.
pub fn put_value(out: &mut Octets, value: &Value) -> Result<(), NoMemory>
    ensures { OnOk result (out.new ≡ out.old ++ value_text value.now) }
{
    match value {
        Value::Short(bits) => {
            out.push(b's')?;
            put_digits(out, *bits)
        }
        Value::Long(octets) => put_hex(out, octets.as_slice()),
    }
}
