//! Modules in binary and in text, read, validated and written.

/// The rows.
pub const ROWS: &str = r#"# Modules in binary

row: a module that gives 7
words: exec seven.wasm
status: 0
report: result 7

row: a module that gives -1
hex a.wasm: 00 61 73 6D 01 00 00 00 01 05 01 60 00 01 7F 03 02 01 00 07 08 01 04 6D 61 69 6E 00 00 0A 06 01 04 00 41 7F 0B
words: exec a.wasm
status: 0
report: result -1

row: a result of another type
hex a.wasm: 00 61 73 6D 01 00 00 00 01 05 01 60 00 01 7F 03 02 01 00 07 08 01 04 6D 61 69 6E 00 00 0A 06 01 04 00 42 07 0B
words: exec a.wasm
status: 3
report: refused invalid function 0

row: the header alone has no task
hex a.wasm: 00 61 73 6D 01 00 00 00
words: exec a.wasm
status: 3
report: refused task 0

row: the header alone is valid
hex a.wasm: 00 61 73 6D 01 00 00 00
words: check a.wasm
status: 0
report: valid

row: the first 0 bytes of the header
hex a.wasm:
words: check a.wasm
status: 3
report: refused malformed 0

row: the first byte of the header
hex a.wasm: 00
words: check a.wasm
status: 3
report: refused malformed 0

row: the first 2 bytes of the header
hex a.wasm: 00 61
words: check a.wasm
status: 3
report: refused malformed 0

row: the first 3 bytes of the header
hex a.wasm: 00 61 73
words: check a.wasm
status: 3
report: refused malformed 0

row: the first 4 bytes of the header
hex a.wasm: 00 61 73 6D
words: check a.wasm
status: 3
report: refused malformed 4

row: the first 5 bytes of the header
hex a.wasm: 00 61 73 6D 01
words: check a.wasm
status: 3
report: refused malformed 4

row: the first 6 bytes of the header
hex a.wasm: 00 61 73 6D 01 00
words: check a.wasm
status: 3
report: refused malformed 4

row: the first 7 bytes of the header
hex a.wasm: 00 61 73 6D 01 00 00
words: check a.wasm
status: 3
report: refused malformed 4

row: the first 7 bytes of the header, run
hex a.wasm: 00 61 73 6D 01 00 00
words: exec a.wasm
status: 3
report: refused malformed 4

row: a size of 1 in two bytes
hex a.wasm: 00 61 73 6D 01 00 00 00 01 81 00 00
words: check a.wasm
status: 0
report: valid

row: a size in too many bytes
hex a.wasm: 00 61 73 6D 01 00 00 00 01 81 80 80 80 80 00 00
words: check a.wasm
status: 3
report: refused malformed 9

row: as many types as can be, of which none is there
hex a.wasm: 00 61 73 6D 01 00 00 00 01 05 FF FF FF FF 0F
words: check a.wasm
status: 3
report: refused malformed 15

row: a new segment is clear
hex a.wasm: 00 61 73 6D 01 00 00 00 01 05 01 60 00 01 7F 03 02 01 00 07 08 01 04 6D 61 69 6E 00 00 0A 0B 01 09 00 41 04 E0 01 00 E0 0A 0B
words: exec a.wasm
status: 0
report: result 0

row: a segment of 3 bytes
hex a.wasm: 00 61 73 6D 01 00 00 00 01 05 01 60 00 01 7F 03 02 01 00 07 08 01 04 6D 61 69 6E 00 00 0A 0B 01 09 00 41 03 E0 01 00 E0 0A 0B
words: exec a.wasm
status: 1
report: trap bounds

row: three instructions and a budget of 2
hex a.wasm: 00 61 73 6D 01 00 00 00 01 05 01 60 00 01 7F 03 02 01 00 07 08 01 04 6D 61 69 6E 00 00 0A 0B 01 09 00 41 04 E0 01 00 E0 0A 0B
words: exec a.wasm --budget 2
status: 4
report: out of budget

row: three instructions and a budget of 3
hex a.wasm: 00 61 73 6D 01 00 00 00 01 05 01 60 00 01 7F 03 02 01 00 07 08 01 04 6D 61 69 6E 00 00 0A 0B 01 09 00 41 04 E0 01 00 E0 0A 0B
words: exec a.wasm --budget 3
status: 0
report: result 0

row: a division by zero
hex a.wasm: 00 61 73 6D 01 00 00 00 01 05 01 60 00 01 7F 03 02 01 00 07 08 01 04 6D 61 69 6E 00 00 0A 09 01 07 00 41 07 41 00 6D 0B
words: exec a.wasm
status: 1
report: trap zero

row: the least number divided by -1
hex a.wasm: 00 61 73 6D 01 00 00 00 01 05 01 60 00 01 7F 03 02 01 00 07 08 01 04 6D 61 69 6E 00 00 0A 0D 01 0B 00 41 80 80 80 80 78 41 7F 6D 0B
words: exec a.wasm
status: 1
report: trap overflow

row: the remainder of the least number by -1
hex a.wasm: 00 61 73 6D 01 00 00 00 01 05 01 60 00 01 7F 03 02 01 00 07 08 01 04 6D 61 69 6E 00 00 0A 0D 01 0B 00 41 80 80 80 80 78 41 7F 6F 0B
words: exec a.wasm
status: 0
report: result 0

row: linear memory grows up to its maximum
hex a.wasm: 00 61 73 6D 01 00 00 00 01 05 01 60 00 01 7F 03 02 01 00 05 04 01 01 00 01 07 08 01 04 6D 61 69 6E 00 00 0A 08 01 06 00 41 01 40 00 0B
words: exec a.wasm
status: 0
report: result 0

row: linear memory doesn't grow past its maximum
hex a.wasm: 00 61 73 6D 01 00 00 00 01 05 01 60 00 01 7F 03 02 01 00 05 04 01 01 00 01 07 08 01 04 6D 61 69 6E 00 00 0A 08 01 06 00 41 02 40 00 0B
words: exec a.wasm
status: 0
report: result -1

# Modules in text that are read and validated

row: a text that is valid
words: check seven.wat
status: 0
report: valid

row: a number in the place of a handle
text a.wat: (func (result i32) i32.const 0 i32.segload)
words: check a.wat
status: 3
report: refused invalid function 0

row: code that isn't reached may select between values of any type
text a.wat: (func unreachable select drop)
words: check a.wat
status: 0
report: valid

row: a handle as the result of a function that gives a number
text a.wat: (func (result i32) unreachable handle.null)
words: check a.wat
status: 3
report: refused invalid function 0

row: a branch out of the function
text a.wat: (func br 1)
words: check a.wat
status: 3
report: refused invalid function 0

row: an unknown identifier
text a.wat: (func call $f)
words: check a.wat
status: 3
report: refused name 11

row: an instruction on floats
text a.wat: (func f32.const 1 drop)
words: check a.wat
status: 3
report: refused float 6

row: many comments that are begun
many a.wat: 100000 (;
words: check a.wat
status: 3
report: refused unclosed 0

row: 500 blocks in one another
text a.wat: (func
many a.wat: 500  block
many a.wat: 500  end
text a.wat: )
words: check a.wat
status: 0
report: valid

row: 501 blocks in one another
text a.wat: (func
many a.wat: 501  block
many a.wat: 501  end
text a.wat: )
words: check a.wat
status: 3
report: refused limit blocks 3006

row: 50,000 locals
text a.wat: (func (local
many a.wat: 50000  i32
text a.wat: ))
words: check a.wat
status: 0
report: valid

row: 50,001 locals
text a.wat: (func (local
many a.wat: 50001  i32
text a.wat: ))
words: check a.wat
status: 3
report: refused limit locals 200013

# Modules that are written

row: a text as a binary
words: asm seven.wat o
status: 0
report: written 37
wrote hex: 00 61 73 6D 01 00 00 00 01 05 01 60 00 01 7F 03 02 01 00 07 08 01 04 6D 61 69 6E 00 00 0A 06 01 04 00 41 07 0B

row: a binary as a text
words: dis seven.wasm o
status: 0
report: written 99
wrote lines: (module /   (type (func (result i32))) /   (func (type 0) /     i32.const 7) /   (export "main" (func 0)))

row: a file of nothing is the text of a module
text a.wat:
words: asm a.wat o
status: 0
report: written 8
wrote hex: 00 61 73 6D 01 00 00 00

row: a memory that is given by its data
text a.wat: (memory (data "a"))
words: asm a.wat o
status: 0
report: written 23
wrote hex: 00 61 73 6D 01 00 00 00 05 04 01 01 01 01 0B 07 01 00 41 00 0B 01 61

row: a text that ends inside of a function
text a.wat: (func br 1
words: asm a.wat o
status: 3
report: refused syntax 10

row: a text is no binary
words: dis seven.wat o
status: 3
report: refused malformed 0"#;
