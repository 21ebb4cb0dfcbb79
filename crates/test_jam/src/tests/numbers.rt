use record_numbers::{u16_at, u32_at};

/// Two words, and a byte behind them.
const BYTES: [u8; 9] = *b"\x01\x02\x03\x04\xFF\xFF\xFF\xFF\x80";

/// Whether two bytes are the numbers that they are at some places.
fn two_are_numbers() -> bool {
    u16_at(&BYTES, 0) == 0x0201
        && u16_at(&BYTES, 2) == 0x0403
        && u16_at(&BYTES, 4) == 0xFFFF
        && u16_at(&BYTES, 7) == 0x80FF
}

/// Whether four bytes are.
fn four_are_numbers() -> bool {
    u32_at(&BYTES, 0) == 0x0403_0201
        && u32_at(&BYTES, 1) == 0xFF04_0302
        && u32_at(&BYTES, 4) == 0xFFFF_FFFF
        && u32_at(&BYTES, 5) == 0x80FF_FFFF
}

#[test]
fn bytes_are_numbers(rt: HostRuntime) {
    assert!(rt; two_are_numbers() && four_are_numbers());
}
