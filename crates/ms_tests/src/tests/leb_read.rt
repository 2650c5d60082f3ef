//! Vectors from outside. Which bytes spell which number is proved.

use ms_bytes::Cursor;
use ms_leb::{Leb, read_s, read_u};

#[test]
fn outside_vectors(rt: HostRuntime) {
    let mut c = Cursor::new(&[0xE5, 0x8E, 0x26, 0xC0, 0xBB, 0x78, 0x80]);
    assert!(rt; read_u(&mut c, 32) == Ok(624_485));
    assert_eq!(rt; c.at(), 3);
    assert!(rt; read_s(&mut c, 32) == Ok(-123_456));
    assert_eq!(rt; c.at(), 6);
    assert!(rt; read_u(&mut c, 7) == Err(Leb::Long));
    assert!(rt; read_u(&mut c, 32) == Err(Leb::Short));
    assert_eq!(rt; c.at(), 6);
}
