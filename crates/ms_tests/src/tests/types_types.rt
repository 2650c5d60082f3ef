//! Vectors with ample memory, and with none.

use ms_types::{FuncType, ValType, Vector};
use std::test::Fail;

#[test]
fn holds_what_it_is_made_of(rt: HostRuntime) -> Result<(), Fail> {
    let mut params = Vector::new(rt.alloc());
    assert!(rt; params.is_empty());
    params.push(ValType::Handle)?;
    params.push(ValType::I64)?;
    assert_eq!(rt; params.len(), 2);
    let results = Vector::from_vec(vec![in rt.alloc(); ValType::I32]?);
    let t = FuncType { params, results };
    assert!(rt; t.params.as_slice() == [ValType::Handle, ValType::I64].as_slice());
    assert!(rt; t.results.as_slice() == [ValType::I32].as_slice());
    Ok(())
}

#[test]
fn gives_the_item_back_where_memory_is_out(rt: HostRuntime) -> Result<(), Fail> {
    let mut v = Vector::new(rt.alloc());
    for ty in [ValType::I32, ValType::I64, ValType::Handle] {
        if let Err(failed) = v.push(ty) {
            assert!(rt; failed.value == ty);
        }
    }
    Ok(())
}
