//! The builder of bodies with ample memory.

use super::shared::{Part, add_all, finish};
use ms_module::{BrTable, Builder, Code, Instr, Name, Opening, Targets};
use ms_types::{ValType, Vector};
use std::process::Abort;
use std::test::Fail;

/// An instruction's name, what a block leaves, and the numbers of its sequences.
type Shape = (&'static str, Option<ValType>, u32, Option<u32>);

fn shape(instr: &Instr) -> Shape {
    match instr {
        Instr::Block { ty, body } => ("block", *ty, *body, None),
        Instr::Loop { ty, body } => ("loop", *ty, *body, None),
        Instr::If { ty, then, other } => ("if", *ty, *then, *other),
        Instr::Nop => ("nop", None, 0, None),
        Instr::Drop => ("drop", None, 0, None),
        Instr::Return => ("return", None, 0, None),
        _ => ("other", None, 0, None),
    }
}

fn expect_sequence<R: Abort>(rt: &R, code: &Code, number: usize, wanted: &[Shape]) {
    assert!(rt; number < code.len());
    let found = code.sequence(number);
    assert_eq!(rt; found.len(), wanted.len());
    for (i, wanted) in wanted.iter().enumerate() {
        assert!(rt; i < found.len());
        assert!(rt; shape(&found[i]) == *wanted);
    }
}

#[test]
fn each_kind_of_block(rt: HostRuntime) -> Result<(), Fail> {
    let mut builder = Builder::new(rt.alloc())?;
    add_all(&rt, &mut builder, &[Part::Open(Opening::Loop, None)])?;
    assert!(rt; !builder.may_else());
    let parts = [
        Part::Nop,
        Part::Close,
        Part::Open(Opening::If, Some(ValType::I32)),
        Part::Drop,
        Part::Turn,
        Part::Open(Opening::Block, None),
    ];
    add_all(&rt, &mut builder, &parts)?;
    assert_eq!(rt; builder.depth(), 2);
    let parts = [
        Part::Close,
        Part::Return,
        Part::Close,
        Part::Open(Opening::If, None),
        Part::Turn,
        Part::Close,
    ];
    add_all(&rt, &mut builder, &parts)?;
    let code = finish(&rt, builder);
    assert_eq!(rt; code.len(), 6);
    let top = [
        ("loop", None, 1, None),
        ("if", Some(ValType::I32), 2, Some(3)),
        ("if", None, 5, None),
    ];
    expect_sequence(&rt, &code, 0, &top);
    expect_sequence(&rt, &code, 1, &[("nop", None, 0, None)]);
    expect_sequence(&rt, &code, 2, &[("drop", None, 0, None)]);
    let other = [("block", None, 4, None), ("return", None, 0, None)];
    expect_sequence(&rt, &code, 3, &other);
    expect_sequence(&rt, &code, 4, &[]);
    expect_sequence(&rt, &code, 5, &[]);
    Ok(())
}

#[test]
fn labels_and_names(rt: HostRuntime) -> Result<(), Fail> {
    let labels = Vector::from_vec(vec![in rt.alloc(); 5u32, 6]?);
    let table = BrTable::new(rt.alloc(), Targets { labels, default: 7 })?;
    assert_eq!(rt; table.labels(), [5, 6].as_slice());
    assert_eq!(rt; table.default(), 7);
    let name = Name::new(rt.alloc(), "m\u{e4}in")?;
    assert_eq!(rt; name.as_str(), "m\u{e4}in");
    Ok(())
}
