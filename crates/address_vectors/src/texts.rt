//! Texts of units: what is read, and the least rule that is broken.

use address_text::read_units;
use knx_model::Why;
use std::alloc::{AllocError, Global};

/// A text, the line at which it is refused, and why.
const REFUSED: [(&[u8], u32, Why); 12] = [
    (b"unit 1.1.20 prog\n\x01", 2, Why::NotText),
    (b"unt 1.1.20 prog\n", 1, Why::UnknownWord),
    (b"unit 1.1.20 programming\n", 1, Why::UnknownWord),
    (b"lose write 1 1\n", 1, Why::UnknownWord),
    (b"\nunit 1.1.0 off\n", 2, Why::BadAddress),
    (b"unit 1.1.256 off\n", 1, Why::BadAddress),
    (b"unit 1.16.1 off\n", 1, Why::BadAddress),
    (b"lose read 0 1\n", 1, Why::BadNumber),
    (b"lose answer 1 0\n", 1, Why::BadNumber),
    (b"unit 1.1.20 # prog\n", 1, Why::MissingWord),
    (b"lose read 1\n", 1, Why::MissingWord),
    (b"unit 1.1.20 off prog\n", 1, Why::ExtraWord),
];

#[test]
fn the_least_rule_that_is_broken_is_told(rt: HostRuntime) {
    for (text, line, why) in &REFUSED {
        let Err(refused) = read_units(rt.alloc(), text) else {
            panic!(rt; "line {line} is read");
        };
        assert_eq!(rt; refused.line, *line);
        assert!(rt; refused.why == *why);
    }
}

/// `unit 15.15.255 off`, so many times.
fn text_of(alloc: Global, units: usize) -> Result<Vec<u8>, AllocError> {
    let mut text = Vec::new(alloc);
    for _ in 0..units {
        text.extend_from_slice(b"unit 15.15.255 off\n")?;
    }
    Ok(text)
}

#[test]
fn a_text_has_255_units(rt: HostRuntime) -> Result<(), AllocError> {
    let text = text_of(rt.alloc(), 255)?;
    let Ok(script) = read_units(rt.alloc(), text.as_slice()) else {
        panic!(rt; "255 units are refused");
    };
    assert_eq!(rt; script.units.len(), 255);
    let text = text_of(rt.alloc(), 256)?;
    let Err(refused) = read_units(rt.alloc(), text.as_slice()) else {
        panic!(rt; "256 units are read");
    };
    assert_eq!(rt; refused.line, 256);
    assert!(rt; refused.why == Why::TooMany { limit: 255 });
    Ok(())
}
