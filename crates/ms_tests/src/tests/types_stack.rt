//! A stack with ample memory.

use ms_types::Stack;
use std::alloc::{AllocError, Global};
use std::test::Fail;

fn four(alloc: Global) -> Result<Stack<u32>, AllocError> {
    let mut stack = Stack::new(alloc);
    for item in [7, 8, 9, 10] {
        stack.push(item)?;
    }
    Ok(stack)
}

#[test]
fn the_topmost_item_comes_first(rt: HostRuntime) -> Result<(), Fail> {
    let stack = four(rt.alloc())?;
    assert_eq!(rt; stack.len(), 4);
    assert_eq!(rt; stack.get(0), 10);
    assert_eq!(rt; stack.get(3), 7);
    let none: Stack<u32> = Stack::new(rt.alloc());
    assert_eq!(rt; none.last(), None);
    Ok(())
}

#[test]
fn the_topmost_item_goes_first(rt: HostRuntime) -> Result<(), Fail> {
    let mut stack = four(rt.alloc())?;
    assert_eq!(rt; stack.len(), 4);
    assert_eq!(rt; stack.pop(), 10);
    stack.set_top(5);
    assert_eq!(rt; stack.last(), Some(5));
    stack.cut(2);
    assert_eq!(rt; stack.last(), Some(7));
    stack.clear();
    assert_eq!(rt; stack.len(), 0);
    Ok(())
}
