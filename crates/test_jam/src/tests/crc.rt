use name_crc::name_crc;

/// The catalogued check value, that of no bytes, and two names that differ in case.
fn are_checksums() -> bool {
    name_crc(b"123456789") == 0x340B_C6D9
        && name_crc(b"") == 0xFFFF_FFFF
        && name_crc(b"JOHN DOE") == name_crc(b"john doe")
}

#[test]
fn names_have_these_checksums(rt: HostRuntime) {
    assert!(rt; are_checksums());
}
