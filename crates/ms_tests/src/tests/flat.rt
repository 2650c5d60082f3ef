//! That a walk succeeds with ample memory. Which items it gives is proved.

use super::shared::{Part, body};
use ms_flat::{Step, Walk};
use ms_module::{Instr, Opening};
use ms_types::ValType;
use std::test::Fail;

/// What a step is, in a word.
fn word(step: Option<Step<'_>>) -> &'static str {
    match step {
        None => "none",
        Some(Step::Plain(Instr::Drop)) => "drop",
        Some(Step::Plain(Instr::Return)) => "return",
        Some(Step::Plain(_)) => "other",
        Some(Step::Begin { opening, ty }) => {
            if opening == Opening::If && ty == Some(ValType::I32) {
                "if i32"
            } else {
                "other block"
            }
        }
        Some(Step::Else) => "else",
        Some(Step::End) => "end",
    }
}

fn next_word(walk: &mut Walk<'_>) -> Result<&'static str, Fail> {
    Ok(word(walk.next()?))
}

#[test]
fn each_item_of_an_if(rt: HostRuntime) -> Result<(), Fail> {
    let parts = [
        Part::Open(Opening::If, Some(ValType::I32)),
        Part::Drop,
        Part::Turn,
        Part::Return,
        Part::Close,
    ];
    let code = body(&rt, rt.alloc(), &parts)?;
    let mut walk = Walk::new(rt.alloc(), &code);
    let wanted = ["if i32", "drop", "else", "return", "end", "none"];
    for wanted in wanted.iter() {
        assert_eq!(rt; next_word(&mut walk)?, *wanted);
    }
    Ok(())
}
