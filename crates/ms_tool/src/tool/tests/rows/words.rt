//! Words of the command line, files that can't be taken, and what `stress` says.

/// The rows.
pub const ROWS: &str = r#"# Words

row: no command
words:
status: 2
report: usage

row: no such command
words: mswasm
status: 2
report: usage

row: help
words: --help
status: 2
report: usage

row: two jobs
words: run job job
status: 2
report: usage

row: less memory than a run may have
words: exec seven.wasm --memory 8
status: 2
report: usage

row: less memory than the run of a text may have
words: exec seven.wat --memory 8
status: 2
report: usage

row: less memory than the run of a unit of C may have
words: exec seven.c --memory 8
status: 2
report: usage

row: less memory than a trace may be judged for
text t:
words: judge t --memory 8
status: 2
report: usage

row: random numbers that begin with 0
words: stress 0 3
status: 2
report: usage

row: random numbers that begin with the modulus
words: stress 2147483647 3
status: 2
report: usage

row: no random number
words: stress 1 0
status: 2
report: usage

row: more random numbers than can be
words: stress 1 100001
status: 2
report: usage

row: a count that isn't given
words: stress 1
status: 2
report: usage

# Files that can't be taken

row: no such file
words: exec none.wat
status: 5
report: read fault none.wat

row: a file that is too long
many a.wasm: 4194305 .
words: exec a.wasm
status: 8
report: too long a.wasm

# Random numbers, of which the first three are 48271, 182605794 and 1291394886: places 3215, 2018 and 3910

row: four segments, one for each number and one for the places
words: stress 1 3
status: 0
rest: allocs 4 / frees 4 / reads 4108 / writes 6 / result 963"#;
