//! A struct laid out, with ample memory.

use c_types::{CType, IntType, Structs, align, offset, size};
use std::rc::Rc;
use std::test::Fail;

/// `struct s { char c; int *p; short h; };`
#[test]
fn lays_a_struct_out(rt: HostRuntime) -> Result<(), Fail> {
    let alloc = rt.alloc();
    let mut structs = Structs::new(alloc);
    let number = structs.add_tag()?;
    let pointer = CType::Pointer(Rc::new(alloc, CType::Int(IntType::Int))?);
    let members = vec![in alloc;
        CType::Int(IntType::Char),
        pointer.share()?,
        CType::Int(IntType::Short),
    ]?;
    structs.define(alloc, number, members)?;
    let s = CType::Struct(number);
    assert!(rt; structs.is_defined(number));
    assert_eq!(rt; size(&structs, &s), 48);
    assert_eq!(rt; align(&structs, &s), 16);
    assert_eq!(rt; offset(&structs, &s, 0), 0);
    assert_eq!(rt; offset(&structs, &s, 1), 16);
    assert_eq!(rt; offset(&structs, &s, 2), 32);
    Ok(())
}
