//! Reading numbers (WebAssembly 1.0, 5.2.2).

ghost use Rattle.ms_bin_grammar.specs.Numbers.{integer_at, number_at};
ghost use Rattle.ms_bin_read.specs.refinement.Readers.{Reads};

use ms_bin_grammar::ReadFault;
use ms_bytes::Cursor;
use ms_leb::{read_s, read_u};

/// Reads an unsigned number of 32 bits.
pub fn u32_of(c: &mut Cursor) -> Result<u32, ReadFault>
    ensures { Reads c.old c.new result (number_at 32 c.old.end c.old.left) }
{
    let at = c.at();
    match read_u(c, 32) {
        Ok(number) => Ok(number as u32),
        Err(_) => Err(ReadFault::Malformed { at }),
    }
}

/// Reads a signed number of 32 bits.
pub fn i32_of(c: &mut Cursor) -> Result<i32, ReadFault>
    ensures { Reads c.old c.new result (integer_at 32 c.old.end c.old.left) }
{
    let at = c.at();
    match read_s(c, 32) {
        Ok(number) => Ok(number as i32),
        Err(_) => Err(ReadFault::Malformed { at }),
    }
}

/// Reads a signed number of 64 bits.
pub fn i64_of(c: &mut Cursor) -> Result<i64, ReadFault>
    ensures { Reads c.old c.new result (integer_at 64 c.old.end c.old.left) }
{
    let at = c.at();
    match read_s(c, 64) {
        Ok(number) => Ok(number),
        Err(_) => Err(ReadFault::Malformed { at }),
    }
}
