//! Locals with ample memory.

ghost use Rattle.std.specs.Prelude.{◌+◌, ◌<◌, ◌^◌, IsTrue, length};

use ms_module::Locals;
use ms_types::ValType;
use std::test::Fail;

fn has_room(locals: &Locals, count: u32) -> bool
    ensures { IsTrue result → length locals.now + count < 2 ^ 32 }
{
    locals.len() <= (u32::MAX - count) as usize
}

#[test]
fn gives_each_local_its_type(rt: HostRuntime) -> Result<(), Fail> {
    let mut locals = Locals::new(rt.alloc());
    assert!(rt; locals.is_empty());
    let declared = [
        (2, ValType::I32),
        (0, ValType::I64),
        (1, ValType::I32),
        (3, ValType::Handle),
        (u32::MAX - 6, ValType::I64),
    ];
    for (count, ty) in declared {
        assert!(rt; has_room(&locals, count));
        locals.push(count, ty)?;
    }
    assert!(rt; !locals.is_empty());
    assert_eq!(rt; locals.len(), u32::MAX as usize);
    let types = [
        (0, Some(ValType::I32)),
        (2, Some(ValType::I32)),
        (3, Some(ValType::Handle)),
        (5, Some(ValType::Handle)),
        (6, Some(ValType::I64)),
        (u32::MAX - 1, Some(ValType::I64)),
        (u32::MAX, None),
    ];
    for (index, want) in types {
        assert!(rt; locals.get(index) == want, "at {index}");
    }
    Ok(())
}
