//! That reading succeeds with ample memory. What is read, and each fault with its place, is proved.

use super::shared::counts;
use ms_text_read::read;
use std::test::Fail;

/// A field of each kind, both forms of tables and memories, inline exports and imports, identifiers of each index space.
const SOURCE: &str = "(module $m
  (type $t (func (param i32) (result i32)))
  (import \"env\" \"put\" (func $put (type $t)))
  (func (export \"a\") (export \"b\") (import \"env\" \"get\") (result i32))
  (table funcref (elem $f 1))
  (memory (data \"ab\" \"c\"))
  (global $g (mut i32) (i32.const 7))
  (func $f (type $t) (param $x i32) (result i32) (local $l i64) (local i32 i32)
    (if $i (local.get $x) (then (br $i)) (else nop))
    block $b local.get $x br_table 0 $b 1 end $b
    (call_indirect (type $t) (param i32) (result i32) (i32.load offset=4 align=1 (global.get $g)) (i32.const 0)))
  (export \"f\" (func $f))
  (start 1)
  (elem (offset i32.const 0) $f)
  (data 0 (i32.const 0) \"d\"))";

#[test]
fn reads_a_module_of_all_fields(rt: HostRuntime) -> Result<(), Fail> {
    let module = read(rt.alloc(), SOURCE.as_bytes())?;
    assert_eq!(rt; counts(&module), [2, 2, 1, 1, 1, 1, 3, 2, 2]);
    assert_eq!(rt; module.start, Some(1));
    Ok(())
}
