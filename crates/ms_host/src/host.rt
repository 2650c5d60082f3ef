//! The functions of the host.

ghost use Rattle.std.specs.Prelude.{◌≡◌, [], ◌∷◌, IfOk};
ghost use Rattle.ms_host.specs.Host.{given_by, lowest_byte, put_of};
ghost use Rattle.ms_outside.specs.Faults.{CountsCall};
ghost use Rattle.ms_outside.specs.Sink.{CountsPut, Puts};
ghost use Rattle.ms_outside.specs.refinement.Source.{CountsTake, GivesByte, Takes};
ghost use Rattle.ms_outside.specs.declared.source.Got.{Got};

use crate::trap::TrapKind;
use ms_outside::{Got as Answer, Put, Sink, Source};

/// A function of the host. A program imports it from `env`.
#[derive(Clone, Copy, PartialEq, Eq)]
pub enum Host {
    /// `[i32] -> [i32]`: puts the lowest byte of a value, and gives that byte.
    Putchar,
    /// `[] -> [i32]`: takes one byte and gives it, or -1 at the end.
    Getchar,
    /// `[] -> []`: stops the program.
    Abort,
}

/// Why a byte was not put.
#[derive(Clone, Copy, PartialEq, Eq)]
pub enum PutFault {
    /// The sink failed, which it has counted.
    Failed,
    /// Memory has run out.
    Memory,
}

/// Why no byte was taken.
#[derive(Clone, Copy, PartialEq, Eq)]
pub enum TakeFault {
    /// The source failed, which it has counted.
    Failed,
}

/// Puts the lowest byte of a value, by one put of one byte, and gives that byte.
///
/// `Failed` comes only where the sink's count of faults rose; the sink then holds that byte or not. After `Memory` it is unchanged.
pub fn putchar<O: Sink>(out: &mut O, value: u32) -> Result<u32, PutFault>
    ensures value { IfOk result (λ v. v ≡ lowest_byte value) }
    ensures held { Puts (put_of result) (lowest_byte value ∷ []) (O.held out.old) (O.held out.new) }
    ensures puts { CountsCall (O.puts out.old) (O.puts out.new) }
    ensures faults { CountsPut (put_of result) (O.faults out.old) (O.faults out.new) }
{
    let byte = (value % 256) as u8;
    match out.put(&[byte]) {
        Put::Done => Ok(u32::from(byte)),
        Put::Failed => Err(PutFault::Failed),
        Put::Memory => Err(PutFault::Memory),
    }
}

/// Takes one byte, by one take, and gives it, or -1 at the end. It takes no memory.
///
/// `Failed` comes only where the source's count of faults rose; what is left of the source then stays.
pub fn getchar<I: Source>(input: &mut I) -> Result<u32, TakeFault>
    ensures take { (got : Got) × (result ≡ given_by got) × Takes got (I.left input.old) (I.left input.new) × CountsTake got (I.faults input.old) (I.faults input.new) × GivesByte got }
    ensures takes { CountsCall (I.takes input.old) (I.takes input.new) }
{
    match input.take() {
        Answer::Byte(b) => Ok(u32::from(b)),
        Answer::End => Ok(u32::MAX),
        Answer::Failed => Err(TakeFault::Failed),
    }
}

/// What a call of `abort` stops the program with.
pub fn abort() -> TrapKind
    ensures { result ≡ TrapKind.Abort }
{
    TrapKind::Abort
}
