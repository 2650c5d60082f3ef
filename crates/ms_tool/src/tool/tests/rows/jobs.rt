//! Jobs: several modules and tasks, what each reaches and how it stands.

/// The rows.
pub const ROWS: &str = r#"# Jobs

row: a read before the end of its segment
words: run in-order
status: 0
report: result 0 / done

row: a read behind the end of its segment
words: run freed
status: 1
report: trap freed

row: the segment ends between the two steps of a read
words: run between
status: 1
report: trap freed

row: a schedule that ends with the start function
words: run short
status: 4
report: out of budget

row: a job's module that isn't read
lines job: module m a.wat / task m r
text a.wat: (func
words: run job
status: 3
report: refused module 0 syntax 5

row: a job's task that isn't there
lines job: module m a.wat / task m r
text a.wat: (func)
words: run job
status: 3
report: refused task 0

row: a task of no module
text job: task m f
words: run job
status: 3
report: refused job line 1

row: an empty job
text job:
words: run job
status: 3
report: refused job task

row: a schedule is no job
words: run 0011
status: 3
report: refused job line 1

row: a job's module whose file isn't there
lines job: module m none.wasm / task m f
words: run job
status: 5
report: read fault none.wasm

# Who holds a handle to a part of a segment reaches that part alone

row: a borrower looks past its part, one step a turn
lines job: module v v.wat / module h h.wat / task h main / task v look / turns 1
words: run job
status: 1
report: trap bounds

row: a borrower looks past its part, two steps a turn
lines job: module v v.wat / module h h.wat / task h main / task v look / turns 2
words: run job
status: 1
report: trap bounds

row: a borrower looks past its part, three steps a turn
lines job: module v v.wat / module h h.wat / task h main / task v look / turns 3
words: run job
status: 1
report: trap bounds

row: a borrower looks past its part, five steps a turn
lines job: module v v.wat / module h h.wat / task h main / task v look / turns 5
words: run job
status: 1
report: trap bounds

row: a borrower looks past its part, 1,000 steps a turn
lines job: module v v.wat / module h h.wat / task h main / task v look / turns 1000
words: run job
status: 1
report: trap bounds

row: a borrower ends the segment, one step a turn
lines job: module v v.wat / module h ends.wat / task h main / task v look / turns 1
words: run job
status: 1
report: trap whole

row: a borrower ends the segment, two steps a turn
lines job: module v v.wat / module h ends.wat / task h main / task v look / turns 2
words: run job
status: 1
report: trap whole

row: a borrower ends the segment, three steps a turn
lines job: module v v.wat / module h ends.wat / task h main / task v look / turns 3
words: run job
status: 1
report: trap whole

row: a borrower ends the segment, five steps a turn
lines job: module v v.wat / module h ends.wat / task h main / task v look / turns 5
words: run job
status: 1
report: trap whole

row: a borrower ends the segment, 1,000 steps a turn
lines job: module v v.wat / module h ends.wat / task h main / task v look / turns 1000
words: run job
status: 1
report: trap whole

# What modules reach

row: the handle in a global reaches its segment, and another module nothing
text a.wat: (global $g (mut handle) handle.null) (func (export "main") i32.const 8 segment.new heap global.set $g)
text b.wat: (module)
lines j: module a a.wat / module b b.wat / task a main / reach 0 a / reach 0 b
words: run j
status: 0
report: done / reach 0 1 8 / reach 1 0 0

row: a slice in a global reaches its bytes
lines a.wat: (global $g (mut handle) handle.null)
lines a.wat: (func (export "main") i32.const 8 segment.new heap i32.const 2 i32.const 3 handle.slice global.set $g)
text b.wat: (module)
lines j: module a a.wat / module b b.wat / task a main / reach 0 a
words: run j
status: 0
report: done / reach 0 1 3

row: what a module reaches whose task doesn't stand above
text a.wat: (func (export "main"))
lines j: module a a.wat / reach 0 a / task a main
words: run j
status: 3
report: refused job line 2

# How each task stands, and whether it is apart from all others

row: a task that has ended and one that stopped the run, apart from each other
text a.wat: (func (export "main") (result i32) i32.const 1)
text b.wat: (func (export "main") (result i32) unreachable)
lines j: module a a.wat / module b b.wat / task a main / task b main / budget 2 / each
words: run j
status: 1
report: trap unreachable / task 0 apart result 1 / task 1 apart trap unreachable

row: the entries of one task alone name one
text a.wat: (func (export "main") (result i32) i32.const 1)
text b.wat: (func (export "main") (result i32) unreachable)
lines j: module a a.wat / module b b.wat / task a main / task b main / budget 2 / each / only 0
words: run j
status: 4
report: out of budget / task 0 apart result 1 / task 1 apart open

row: tasks of one instance are joined
text a.wat: (func (export "main") (result i32) i32.const 1)
text b.wat: (func (export "main") (result i32) unreachable)
lines j: module a a.wat / module b b.wat / task a main / task a main / budget 2 / each
words: run j
status: 0
report: result 1 / result 1 / task 0 joined result 1 / task 1 joined result 1

row: the one task that is named alone doesn't stand above
text a.wat: (func (export "main"))
lines j: module a a.wat / only 0 / task a main
words: run j
status: 3
report: refused job line 2"#;
