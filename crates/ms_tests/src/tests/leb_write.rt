//! Vectors from outside. Which bytes are written is proved.

use ms_leb::{write_s, write_u};
use std::test::Fail;

#[test]
fn outside_vectors(rt: HostRuntime) -> Result<(), Fail> {
    let mut out = Vec::new(rt.alloc());
    write_u(624_485, &mut out)?;
    write_s(-123_456, &mut out)?;
    let wanted = [0xE5, 0x8E, 0x26, 0xC0, 0xBB, 0x78];
    assert_eq!(rt; out.as_slice(), wanted.as_slice());
    Ok(())
}
