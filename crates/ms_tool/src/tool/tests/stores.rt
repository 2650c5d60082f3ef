//! Jobs over both forms of the segment memory's stores: the plain ones, which keep a list of the live segments and a tag for each
//! byte, and those of the program.

use super::*;
use ms_job::parse;
use ms_live::{Gaps, ListGaps, TreeGaps};
use ms_run::{Naming, run_parsed, stress_over};
use ms_tagged::{ByteTags, Granules, Tagged};

/// What stands before the instructions of a module's function.
const START: &str = "(func (export \"main\") (local $h handle) (local $g handle) ";

/// The instructions of a `main`, and what is wanted of a job that runs them and dumps the live segments: the status, and the report.
const ROWS: [(&str, Status, &str); 7] = [
    // One byte over a handle leaves its other bytes.
    (
        "i32.const 32 segment.new heap local.tee $h i64.const 16 handle.add 1 local.get $h handle.store
         local.get $h i64.const 21 handle.add 1 i32.const 171 i32.segstore8",
        Status::Done,
        "done\ndump 1 0 32 heap 00000000000000000000000000000000----------ab--------------------\n",
    ),
    // What is left of a handle is a broken one.
    (
        "i32.const 16 segment.new heap local.tee $h local.get $h handle.store
         local.get $h i32.const 0 i32.segstore8 local.get $h handle.load i32.segload drop",
        Status::Trapped,
        "trap invalid\ndump 1 0 16 heap 00------------------------------\n",
    ),
    // Nor is it data.
    (
        "i32.const 16 segment.new heap local.tee $h local.get $h handle.store
         local.get $h i32.const 0 i32.segstore8 local.get $h i32.segload16_u drop",
        Status::Trapped,
        "trap provenance\ndump 1 0 16 heap 00------------------------------\n",
    ),
    // A whole handle that comes back from memory leads to its segment.
    (
        "i32.const 32 segment.new heap local.tee $h i64.const 16 handle.add 1 local.get $h handle.store
         local.get $h i64.const 16 handle.add 1 handle.load i32.const 258 i32.segstore16",
        Status::Done,
        "done\ndump 1 0 32 heap 02010000000000000000000000000000--------------------------------\n",
    ),
    // Two segments side by side, of which the second keeps its handle as the first one ends.
    (
        "i32.const 16 segment.new heap local.tee $h i32.const 16 segment.new frame local.tee $g handle.store
         local.get $g local.get $g handle.store local.get $h segment.free heap",
        Status::Done,
        "done\ndump 2 16 16 frame --------------------------------\n",
    ),
    // The place of a segment that ended is found again, and is clear.
    (
        "i32.const 16 segment.new heap local.tee $h local.get $h handle.store
         i32.const 16 segment.new heap drop local.get $h segment.free heap i32.const 8 segment.new heap drop",
        Status::Done,
        "done\ndump 2 16 16 heap 00000000000000000000000000000000\ndump 3 0 8 heap 0000000000000000\n",
    ),
    // There is no room for a third.
    (
        "i32.const 32 segment.new heap drop i32.const 32 segment.new heap drop
         i32.const 1 segment.new heap i32.segload drop",
        Status::Trapped,
        "trap null\ndump 1 0 32 heap 0000000000000000000000000000000000000000000000000000000000000000
dump 2 32 32 heap 0000000000000000000000000000000000000000000000000000000000000000\n",
    ),
];

/// What a job over stores of these kinds ends with.
fn ran<G: Gaps, T: Tagged>(alloc: Global, outside: &mut Outside) -> Result<Status, Fail> {
    let job = parse(alloc, b"module m m.wat\ntask m main\nmemory 64\ndump\n")?;
    Ok(run_parsed::<G, T, MemShelf, MemSource, MemSink, MemSink>(
        alloc,
        Naming::Numbered,
        job,
        &mut outside.shelf,
        &mut outside.input,
        &mut outside.out,
        &mut outside.report,
    ))
}

/// A module whose function has these instructions.
fn module_of(alloc: Global, code: &str) -> Result<Vec<u8>, AllocError> {
    let mut text = Vec::from_slice(alloc, START.as_bytes())?;
    text.extend_from_slice(code.as_bytes())?;
    text.extend_from_slice(b")")?;
    Ok(text)
}

/// What is outside of a job over that module.
fn outside_of(alloc: Global, code: &str) -> Result<Outside, AllocError> {
    let text = module_of(alloc, code)?;
    let mut outside = nothing(alloc, "")?;
    outside.shelf.add(alloc, "m.wat", text)?;
    Ok(outside)
}

/// What comes of a job over stores of these kinds that runs these instructions: its status, and its report.
fn printed<G: Gaps, T: Tagged>(alloc: Global, code: &str) -> Result<(Status, MemSink), Fail> {
    let mut outside = outside_of(alloc, code)?;
    let given = ran::<G, T>(alloc, &mut outside)?;
    Ok((given, outside.report))
}

/// Whether each row comes out so over stores of these kinds.
fn expect_printed<G: Gaps, T: Tagged>(
    rt: &impl Abort,
    alloc: Global,
    rows: &[(&str, Status, &str)],
) -> Result<(), Fail> {
    for (code, status, report) in rows {
        let (given, printed) = printed::<G, T>(alloc, code)?;
        assert!(rt; given == *status, "the status of {code}");
        assert_eq!(rt; printed.held(), report.as_bytes(), "the report of {code}");
    }
    Ok(())
}

#[test]
fn the_plain_stores(rt: HostRuntime) -> Result<(), Fail> {
    expect_printed::<ListGaps, ByteTags>(&rt, rt.alloc(), &ROWS)
}

#[test]
fn the_stores_of_the_program(rt: HostRuntime) -> Result<(), Fail> {
    expect_printed::<TreeGaps, Granules>(&rt, rt.alloc(), &ROWS)
}

/// What comes of random numbers over stores of these kinds: its status, and its report.
fn stressed<G: Gaps, T: Tagged>(alloc: Global) -> Result<(Status, MemSink), Fail> {
    let mut outside = nothing(alloc, "")?;
    let given = stress_over::<G, T, MemShelf, MemSource, MemSink, MemSink>(
        alloc,
        7,
        100_000,
        &mut outside.shelf,
        &mut outside.input,
        &mut outside.out,
        &mut outside.report,
    );
    Ok((given, outside.report))
}

#[test]
fn random_numbers_over_both(rt: HostRuntime) -> Result<(), Fail> {
    let (given, report) = stressed::<TreeGaps, Granules>(rt.alloc())?;
    let (plain, lines) = stressed::<ListGaps, ByteTags>(rt.alloc())?;
    assert!(rt; given == Status::Done);
    assert!(rt; plain == Status::Done);
    assert_eq!(rt; report.held(), lines.held());
    Ok(())
}
