//! Modules that are run, with segments, and traces that are judged.

/// The rows.
pub const ROWS: &str = r#"# Modules in text that are run

row: a text that gives 7
words: exec seven.wat
status: 0
report: result 7

row: one instruction and a budget of 2
words: exec seven.wat --budget 2
status: 0
report: result 7

row: one instruction and no budget
words: exec seven.wat --budget 0
status: 4
report: out of budget

row: no instruction and no budget
text a.wat: (func (export "main"))
words: exec a.wat --budget 0
status: 0
report: done

row: no function of the task's name
text a.wat: (func)
words: exec a.wat
status: 3
report: refused task 0

row: an import that no module before it exports
text a.wat: (import "c" "f" (func)) (func (export "main"))
words: exec a.wat
status: 3
report: refused link 0 0 noexport

row: a linear memory of more pages than there may be
text a.wat: (memory 1025) (func (export "main"))
words: exec a.wat
status: 3
report: refused link 0 1 toolarge

row: a table of more entries than there may be
text a.wat: (table 65537 funcref) (func (export "main"))
words: exec a.wat
status: 3
report: refused link 0 0 toolarge

row: a byte is put before the trap
lines a.wat: (import "env" "putchar" (func $p (param i32) (result i32)))
lines a.wat: (func (export "main") i32.const 65 call $p drop unreachable)
words: exec a.wat
status: 1
report: trap unreachable
out: A

row: two bytes are put
lines a.wat: (import "env" "putchar" (func $p (param i32) (result i32)))
lines a.wat: (func (export "main") i32.const 65 call $p drop i32.const 66 call $p drop)
words: exec a.wat
status: 0
report: done
out: AB

row: the task is the function of the host that takes a byte
text a.wat: (import "env" "getchar" (func (result i32))) (export "main" (func 0))
words: exec a.wat
status: 0
report: result 104
took: h

row: all that is taken is put
words: exec echo.wat
status: 0
report: result 0
out: hi
took: hi

row: 16,384 calls are open at once
lines a.wat: (func $f (param i32) (result i32) local.get 0
lines a.wat: if (result i32) local.get 0 i32.const 1 i32.sub call $f else local.get 0 end)
lines a.wat: (func (export "main") (result i32) i32.const 16382 call $f)
words: exec a.wat
status: 0
report: result 0

row: 16,385 calls are open at once
lines a.wat: (func $f (param i32) (result i32) local.get 0
lines a.wat: if (result i32) local.get 0 i32.const 1 i32.sub call $f else local.get 0 end)
lines a.wat: (func (export "main") (result i32) i32.const 16383 call $f)
words: exec a.wat
status: 1
report: trap depth

row: more segment memory than 2^24 bytes
words: exec seven.wat --memory 16777217
status: 0
report: result 7

row: as much segment memory as can be
words: exec seven.wat --memory 1073741824
status: 0
report: result 7

row: more segment memory than can be
words: exec seven.wat --memory 1073741825
status: 2
report: usage

# Segments

row: a null handle is freed
text a.wat: (func (export "main") handle.null segment.free heap)
words: exec a.wat
status: 1
report: trap null

row: a handle that was written over in part
lines a.wat: (func (export "main") (result i32) (local $h handle)
lines a.wat: i32.const 32 segment.new heap local.tee $h local.get $h handle.store
lines a.wat: local.get $h i64.const 5 handle.add 1 i32.const 0 i32.segstore8
lines a.wat: local.get $h handle.load i32.segload)
words: exec a.wat
status: 1
report: trap invalid

row: a piece of a handle is no data
lines a.wat: (func (export "main") (result i32) (local $h handle)
lines a.wat: i32.const 32 segment.new heap local.tee $h local.get $h handle.store
lines a.wat: local.get $h i32.segload)
words: exec a.wat
status: 1
report: trap provenance

row: a handle is stored at 8
lines a.wat: (func (export "main") (result i32) (local $h handle)
lines a.wat: i32.const 32 segment.new heap local.tee $h local.get $h handle.store
lines a.wat: local.get $h i64.const 8 handle.add 1 local.get $h handle.store i32.const 0)
words: exec a.wat
status: 1
report: trap misaligned

row: sixteen bytes 0 are the null handle
text a.wat: (func (export "main") (result i32) i32.const 16 segment.new heap handle.load handle.is_null)
words: exec a.wat
status: 0
report: result 1

row: a look in front of a slice, inside of its segment
words: exec slice.wat
status: 1
report: trap bounds

row: the trace of a look in front of a slice
words: run traced-slice
status: 1
report: trap bounds
wrote lines: alloc 1 0 8 / slice 1 0 8 4 8

row: the judge accepts the trace of a look in front of a slice
before: run traced-slice
words: judge o
status: 0
report: accepted 2
wrote lines: alloc 1 0 8 / slice 1 0 8 4 8

row: a handle that a segment keeps is shown as pieces
words: run dumped
status: 0
report: done / dump 1 0 20 heap --------------------------------00000000

row: a store through a sealed handle
text a.wat: (func (export "main") i32.const 4 segment.new heap handle.seal i32.const 1 i32.segstore)
words: run traced
status: 1
report: trap readonly
wrote lines: alloc 1 0 4 / seal 1 0 4

row: a load through a sealed handle
text a.wat: (func (export "main") (result i32) i32.const 4 segment.new heap handle.seal i32.segload)
words: run traced
status: 0
report: result 0
wrote lines: alloc 1 0 4 / seal 1 0 4 / read 1 0 4 0 4 sealed

# Traces that are judged

row: two segments at one place
lines t: alloc 1 0 4 / alloc 2 0 4
words: judge t
status: 1
report: rejected 2

row: two segments at one place, one after the other
lines t: alloc 1 0 4 / free 1 / alloc 2 0 4
words: judge t
status: 0
report: accepted 3

row: no event
text t:
words: judge t
status: 0
report: accepted 0

row: a read in front of a slice
lines t: alloc 1 0 8 / slice 1 0 8 4 8 / read 1 4 8 0 4
words: judge t
status: 1
report: rejected 3

row: a segment is refused though there is room
lines t: refused 16
words: judge t
status: 1
report: rejected 1

row: a line that is no event
lines t: alloc 1 0
words: judge t
status: 3
report: refused trace line 1

row: a segment at an address that 16 doesn't divide
lines t: alloc 1 8 4
words: judge t
status: 1
report: rejected 1

row: a read through a sealed handle that nothing sealed
lines t: alloc 1 0 4 / read 1 0 4 0 4 sealed
words: judge t
status: 1
report: rejected 2

row: the handle that was sealed may still write
lines t: alloc 1 0 4 / seal 1 0 4 / write 1 0 4 0 4
words: judge t
status: 0
report: accepted 3"#;
