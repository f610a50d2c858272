//! Words at the ends of both ranges.

use crate::{read_u32, read_u64};

#[test]
fn words_are_read_to_the_last_number(rt: HostRuntime) {
    assert!(rt; read_u64(b"18446744073709551615") == Some(18446744073709551615));
    assert!(rt; read_u64(b"18446744073709551616").is_none());
    assert!(rt; read_u32(b"4294967295") == Some(4294967295) && read_u32(b"4294967296").is_none());
}

#[test]
fn other_spellings_are_none(rt: HostRuntime) {
    assert!(rt; read_u64(b"0") == Some(0) && read_u32(b"0") == Some(0));
    assert!(rt; read_u64(b"").is_none() && read_u64(b"01").is_none() && read_u64(b"+1").is_none());
}
