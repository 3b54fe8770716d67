//! Values of parameter memory.

use parameter_memory::value_at;

#[test]
fn a_value_is_read_with_the_highest_bit_first(rt: HostRuntime) {
    let memory = b"\x01\x23\x45\x67\x89";
    assert_eq!(rt; value_at(memory, 0, 32), 0x0123_4567);
    assert_eq!(rt; value_at(memory, 4, 32), 0x1234_5678);
    assert_eq!(rt; value_at(memory, 10, 5), 0b10001);
    assert_eq!(rt; value_at(memory, 7, 1), 1);
    assert_eq!(rt; value_at(memory, 38, 1), 0);
    assert_eq!(rt; value_at(memory, 39, 1), 1);
}
