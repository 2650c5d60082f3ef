//! A table of names with ample memory.

use ms_names::{NameTable, Seen};
use std::alloc::AllocError;
use std::process::Abort;
use std::test::Fail;

fn expect_put<R: Abort>(
    rt: &R,
    table: &mut NameTable,
    name: &str,
    seen: Seen,
) -> Result<(), AllocError> {
    assert!(rt; table.put(name)? == seen, "{name}");
    Ok(())
}

fn expect_found<R: Abort>(rt: &R, table: &NameTable, name: &str, number: Option<u32>) {
    assert_eq!(rt; table.find(name), number, "{name}");
}

#[test]
fn a_name_keeps_its_number(rt: HostRuntime) -> Result<(), Fail> {
    let mut table = NameTable::new(rt.alloc())?;
    for (name, seen) in [
        ("$a", Seen::New(0)),
        ("$b", Seen::New(1)),
        ("$a", Seen::Old(0)),
    ] {
        expect_put(&rt, &mut table, name, seen)?;
    }
    expect_found(&rt, &table, "$b", Some(1));
    expect_found(&rt, &table, "$c", None);
    Ok(())
}
