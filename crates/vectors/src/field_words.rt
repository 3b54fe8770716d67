//! Words of the field that a program reads by themselves.

use knx_model::{
    LongValue, Value, flags_of, group_of, ind_of, is_name, number_of, size_code_of, value_of,
};

#[test]
fn words_are_read(rt: HostRuntime) {
    assert_eq!(rt; ind_of("15.015.1").map(|address| address.raw), Some(0xFF01));
    assert_eq!(rt; ind_of("1.1.255").map(|address| address.raw), None);
    assert_eq!(rt; group_of("1/2/3").map(|group| group.raw), Some(0x0A03));
    assert_eq!(rt; group_of("0/0/0").map(|group| group.raw), None);
    assert_eq!(rt; number_of("0x1f"), Some(31));
    assert_eq!(rt; number_of("4294967296"), None);
    assert_eq!(rt; flags_of("TWC"), Some(0x57));
    assert_eq!(rt; flags_of("CC"), None);
    assert_eq!(rt; size_code_of("112"), Some(14));
    assert_eq!(rt; size_code_of("9"), None);
    assert!(rt; is_name("Hall_2-b.9"));
    assert!(rt; !is_name("a/b"));
    assert!(rt; value_of("s3F") == Some(Value::Short(0x3F)));
    assert!(rt; value_of("0A0b") == Some(Value::Long(LongValue::from_slice(&[0x0A, 0x0B]))));
    assert!(rt; value_of("s40").is_none());
}
