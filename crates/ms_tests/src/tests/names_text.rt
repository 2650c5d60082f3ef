//! Bytes that are UTF-8, and others.

use ms_names::utf8;

/// Characters of one and of four bytes, one that is cut off, and half of a pair.
#[test]
fn tells_utf8_from_other_bytes(rt: HostRuntime) {
    let table: [(&[u8], bool); 4] = [
        (b"main", true),
        (&[0xF4, 0x8F, 0xBF, 0xBF], true),
        (&[0xE2, 0x82], false),
        (&[0xED, 0xA0, 0x80], false),
    ];
    for (bytes, is_text) in table {
        assert_eq!(rt; utf8(bytes).is_some(), is_text, "{bytes:?}");
    }
}
