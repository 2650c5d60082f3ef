//! That a table is made with ample memory. Where a call through it goes is proved.

use ms_linear::{CallTrap, Entry, FuncRef, Table, target};
use ms_types::{FuncType, Limits, SharedType, ValType, Vector};
use std::alloc::{AllocError, Global};
use std::test::Fail;

/// A function type of one parameter.
fn sig_of(alloc: Global, param: ValType) -> Result<FuncType, AllocError> {
    Ok(FuncType {
        params: Vector::from_vec(vec![in alloc; param]?),
        results: Vector::new(alloc),
    })
}

#[test]
fn a_call_goes_to_a_function_of_the_type(rt: HostRuntime) -> Result<(), Fail> {
    let mut table = Table::new(rt.alloc(), Limits { min: 2, max: None })?;
    let entry = Entry {
        func: FuncRef { address: 9 },
        sig: SharedType::new(rt.alloc(), sig_of(rt.alloc(), ValType::I32)?)?,
    };
    assert!(rt; 1 < table.len());
    table.set(1, entry);
    let sig = sig_of(rt.alloc(), ValType::I32)?;
    assert!(rt; target(&table, 1, &sig) == Ok(FuncRef { address: 9 }));
    assert!(rt; target(&table, 0, &sig) == Err(CallTrap::Empty));
    assert!(rt; target(&table, 2, &sig) == Err(CallTrap::Outside));
    let other = sig_of(rt.alloc(), ValType::Handle)?;
    assert!(rt; target(&table, 1, &other) == Err(CallTrap::Signature));
    Ok(())
}
