//! Calls of the outside that fail.

/// The rows.
pub const ROWS: &str = r#"# Calls of the outside that fail

row: a module can't be read
fails read: 1
words: exec seven.wasm
status: 5
report: read fault seven.wasm

row: a module's result can't be reported
fails report: 1
words: exec seven.wasm
status: 6

row: a text that is to be written can't be read
fails read: 1
words: asm seven.wat o
status: 5
report: read fault seven.wat

row: a binary can't be written
fails write: 1
words: asm seven.wat o
status: 6

row: that a binary is written can't be reported
fails report: 1
words: asm seven.wat o
status: 6
wrote hex: 00 61 73 6D 01 00 00 00 01 05 01 60 00 01 7F 03 02 01 00 07 08 01 04 6D 61 69 6E 00 00 0A 06 01 04 00 41 07 0B

row: that a text isn't read can't be reported
fails read: 1
fails report: 1
words: asm seven.wat o
status: 6

row: a job can't be read
fails read: 1
words: run in-order
status: 5
report: read fault in-order

row: a job's module can't be read
fails read: 2
words: run in-order
status: 5
report: read fault handle.wat

row: a job's schedule can't be read
fails read: 3
words: run in-order
status: 5
report: read fault 0011

row: a unit can't be read
fails read: 1
words: exec echo.c
status: 5
report: read fault echo.c

row: a unit's first byte can't be taken
fails input: 1
words: exec echo.c
status: 5
report: read fault

row: a unit's second byte can't be taken
fails input: 2
words: exec echo.c
status: 5
report: read fault
out: h
took: h

row: a unit's end of input can't be taken
fails input: 3
words: exec echo.c
status: 5
report: read fault
out: hi
took: hi

row: a unit's first byte can't be put
fails out: 1
words: exec echo.c
status: 6
took: h

row: a unit's second byte can't be put
fails out: 2
words: exec echo.c
status: 6
out: h
took: hi

row: a unit's result can't be reported
fails report: 1
words: exec echo.c
status: 6
out: hi
took: hi

row: that a unit's byte can't be taken can't be reported
fails input: 1
fails report: 1
words: exec echo.c
status: 6

row: a text that is run can't be read
fails read: 1
words: exec echo.wat
status: 5
report: read fault echo.wat

row: a text's first byte can't be taken
fails input: 1
words: exec echo.wat
status: 5
report: read fault

row: a text's second byte can't be taken
fails input: 2
words: exec echo.wat
status: 5
report: read fault
out: h
took: h

row: a text's end of input can't be taken
fails input: 3
words: exec echo.wat
status: 5
report: read fault
out: hi
took: hi

row: a text's first byte can't be put
fails out: 1
words: exec echo.wat
status: 6
took: h

row: a text's second byte can't be put
fails out: 2
words: exec echo.wat
status: 6
out: h
took: hi

row: a text's result can't be reported
fails report: 1
words: exec echo.wat
status: 6
out: hi
took: hi

row: that a text's byte can't be taken can't be reported
fails input: 1
fails report: 1
words: exec echo.wat
status: 6

row: a unit's only byte can't be taken
text a.c: int main(void){return getchar();}
fails input: 1
words: exec a.c
status: 5
report: read fault

row: a unit's third byte can't be put
fails out: 3
words: exec overrun.c
status: 6
out: 01

row: a trace can't be written
fails write: 1
words: run traced-remakes
status: 6

row: a module's trace can't be written
lines a.wat: (func (export "main") i32.const 8 segment.new heap segment.free heap
lines a.wat: i32.const 8 segment.new heap i32.const 1 i32.segstore)
fails write: 1
words: run traced
status: 6

row: a dump can't be reported
fails report: 2
words: run dumped
status: 6
report: done

row: the numbers of what a run did can't be reported
fails report: 1
words: stress 1 3
status: 6"#;
