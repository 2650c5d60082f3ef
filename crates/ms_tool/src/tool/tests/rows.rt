//! The rows of the program, worked out by hand. A row is a block of lines `KEY: VALUE`; a block that begins with `#` is a heading.
//!
//! What is outside: `text F: T` adds T to the file F, `lines F: A / B` adds lines, `hex F: 00 61` bytes, and `many F: 3 T` adds T three times.
//! `input: T` may be taken (`hi`, if there is none), and `fails D: 2` lets the second call of D (`read`, `write`, `input`, `out`, `report`) fail.
//! What is asked: the words of `words: W`, after those of `before: W`, of which nothing is compared but what they leave outside.
//! What is wanted: `status: N`, `report: A / B`, `out: T`, `took: T` of the input, and the file `o` by `wrote lines: A / B` or `wrote hex: 00 61`.
//! A report of `usage` are the usage lines; `rest: A / B` is what stands behind the first line of the report.
//! Where a line isn't there nothing is wanted: no report, no byte put or taken, no file `o`.

mod failures;
mod jobs;
mod modules;
mod runs;
mod units;
mod words;

/// Files that are there in each row.
pub const FILES: &str = r#"# A module that gives 7, in text, in binary and as a unit of C.
text seven.wat: (func (export "main") (result i32) i32.const 7)
hex seven.wasm: 00 61 73 6D 01 00 00 00 01 05 01 60 00 01 7F 03 02 01 00 07 08 01 04 6D 61 69 6E 00 00 0A 06 01 04 00 41 07 0B
text seven.c: int main(void){return 7;}

# A module and a unit that put what they take, up to the end.
lines echo.wat: (import "env" "getchar" (func $take (result i32)))
lines echo.wat: (import "env" "putchar" (func $put (param i32) (result i32)))
lines echo.wat: (func (export "main") (result i32) (local $c i32)
lines echo.wat: block loop call $take local.tee $c i32.const -1 i32.eq br_if 1 local.get $c call $put drop br 0 end end i32.const 0)
text echo.c: int main(void){int c; while((c=getchar())!=-1) putchar(c); return 0;}

# A module that looks in front of a slice, inside of its segment, and a job that asks for the trace.
lines slice.wat: (func (export "main") (result i32) i32.const 8 segment.new heap i32.const 4 i32.const 4
lines slice.wat: handle.slice i64.const -1 handle.add 4 i32.segload)
lines traced-slice: module m slice.wat / task m main / trace o

# A job that asks for the trace of the module that a row gives.
lines traced: module m a.wat / task m main / trace o

# A module that keeps a handle in its segment, and a job that shows the segment.
lines keeps.wat: (func (export "main") (local $h handle)
lines keeps.wat: i32.const 20 segment.new heap local.tee $h local.get $h handle.store)
lines dumped: module m keeps.wat / task m main / dump

# A module whose start function keeps a handle, which takes three steps, and whose exports read through it and end it, and jobs.
lines handle.wat: (global $g (mut handle) handle.null) (func $i i32.const 4 segment.new heap global.set $g) (start $i)
lines handle.wat: (func (export "r") (result i32) global.get $g i32.segload) (func (export "f") global.get $g segment.free heap)
lines in-order: module m handle.wat / task m r / task m f / schedule 0011
lines freed: module m handle.wat / task m r / task m f / schedule 1100
lines between: module m handle.wat / task m r / task m f / schedule 0110
lines short: module m handle.wat / task m r / task m f / schedule 0
text 0011: 0 0 0 0 0 1 1
text 1100: 0 0 0 1 1 0 0
text 0110: 0 0 0 0 1 1 0
text 0: 0 0 0 0

# A module that lends a part of its segment and looks at the rest, one that writes past what it was lent, and one that ends it.
lines v.wat: (global $g (mut handle) handle.null) (func $i i32.const 8 segment.new heap global.set $g) (start $i)
lines v.wat: (func (export "lend") (result handle) global.get $g i32.const 0 i32.const 4 handle.slice)
lines v.wat: (func (export "look") (result i32) global.get $g i64.const 4 handle.add 1 i32.segload)
lines h.wat: (import "v" "lend" (func $l (result handle)))
lines h.wat: (func (export "main") call $l i64.const 4 handle.add 1 i32.const 9 i32.segstore)
lines ends.wat: (import "v" "lend" (func $l (result handle)))
lines ends.wat: (func (export "main") call $l segment.free heap)

# A unit that puts a byte before each write to an array, and writes past its end.
text overrun.c: int main(void){int a[4]; int i; for(i=0;i<=4;i=i+1){putchar(48+i); a[i]=i;} return 0;}

# A unit that frees an object, makes another, writes into that, and reads the first, and a job that asks for the trace.
text remakes.c: int main(void){int *p=malloc(4); int *q; free(p); q=malloc(4); *q=9; return *p;}
lines traced-remakes: module m remakes.c / task m main / trace o"#;

/// The tables of rows.
pub const TABLES: [&str; 6] = [
    words::ROWS,
    modules::ROWS,
    runs::ROWS,
    jobs::ROWS,
    units::ROWS,
    failures::ROWS,
];
