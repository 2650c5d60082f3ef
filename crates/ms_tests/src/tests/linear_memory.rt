//! That a memory is made and grows with ample memory. What each call does is proved.

use ms_linear::{Linear, Outside};
use ms_types::Limits;
use std::test::Fail;

#[test]
fn grows_and_keeps_its_bytes(rt: HostRuntime) -> Result<(), Fail> {
    let limits = Limits {
        min: 1,
        max: Some(3),
    };
    let mut memory = Linear::new(rt.alloc(), limits)?;
    assert!(rt; memory.store(65532, 4, 0xBBAA_9988) == Ok(()));
    assert_eq!(rt; memory.grow(2)?, Some(1));
    assert_eq!(rt; memory.len(), 3);
    assert!(rt; memory.load(65532, 8) == Ok(0xBBAA_9988));
    assert!(rt; memory.load(196_608, 1) == Err(Outside));
    assert_eq!(rt; memory.grow(1)?, None);
    Ok(())
}
