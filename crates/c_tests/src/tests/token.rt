//! The calls that take memory, with ample memory.

use c_token::Bytes;
use std::test::Fail;

#[test]
fn a_copy_has_the_same_bytes(rt: HostRuntime) -> Result<(), Fail> {
    let name = Bytes::new(vec![in rt.alloc(); 97, 98]?);
    let copy = name.copy(rt.alloc())?;
    assert_eq!(rt; copy.as_slice(), [97, 98].as_slice());
    Ok(())
}
