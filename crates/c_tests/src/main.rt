//! The table of C texts: what becomes of each.
//!
//! It goes over the lines of the standard input and prints what becomes of each text, a line each: `typed`, its typed tree where
//! the line begins with `?`, or why it has none and where, in the words of a report. The crate's `stdin` is the table, by the rules
//! of typing, and `stdout` what is wanted, worked out by hand. Its tests are those of the trees, the lexer and the parser, of which
//! each is so proved only once. It stands on these and on the typing of C. Read `specs/Texts.antt` first.
#![tactic(auto)]

mod print;
mod refusal;
mod text;

use std::alloc::{AllocError, Global};
use std::io;
use text::{is_text, typed};

/// What becomes of a text, as a line.
fn answer(alloc: Global, text: &[u8], tree: bool) -> Result<String, AllocError> {
    match typed(alloc, text) {
        Ok(unit) => {
            let mut line = String::new(alloc);
            line.push_str("typed")?;
            if tree {
                print::unit(&mut line, unit.unit())?;
            }
            Ok(line)
        }
        Err(refusal) => format!(in alloc; "{refusal}"),
    }
}

fn main(rt: HostRuntime) -> io::Result<()> {
    for line in rt.lines(rt.alloc()) {
        let line = line?;
        if is_text(line.as_str()) {
            match line.as_bytes() {
                [b'?', text @ ..] => {
                    let answer = answer(rt.alloc(), text, true)?;
                    println!(rt; "{answer}")?
                }
                text => {
                    let answer = answer(rt.alloc(), text, false)?;
                    println!(rt; "{answer}")?
                }
            }
        }
    }
    Ok(())
}

#[cfg(test)]
mod tests;
