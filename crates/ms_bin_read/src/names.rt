//! Reading names (WebAssembly 1.0, 5.2.4).

ghost use Rattle.ms_bin_grammar.specs.Sizes.{name};
ghost use Rattle.ms_bin_read.specs.refinement.Readers.{ReadsPart};

use crate::items::Item;
use ms_bin_grammar::ReadFault;
use ms_bytes::Cursor;
use ms_leb::read_u;
use ms_module::Name;
use ms_names::utf8;
use std::alloc::Global;

/// Reads a name, in place. Every fault is at its count.
pub fn text_of<'a>(c: &mut Cursor<'a>) -> Result<&'a str, ReadFault>
    ensures { ReadsPart c.old c.new result (name.read c.old.end c.old.left) }
{
    let at = c.at();
    let Ok(size) = read_u(c, 32) else {
        return Err(ReadFault::Malformed { at });
    };
    let Some(bytes) = c.take_n(size as usize) else {
        return Err(ReadFault::Malformed { at });
    };
    match utf8(bytes) {
        Some(text) => Ok(text),
        None => Err(ReadFault::Malformed { at }),
    }
}

impl Item for Name {
    ghost format = { name };

    fn read(alloc: Global, c: &mut Cursor) -> Result<Self, ReadFault> {
        let text = text_of(c)?;
        Ok(Name::new(alloc, text)?)
    }
}
