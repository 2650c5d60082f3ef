//! A source over a device.

ghost use Rattle.std.specs.Prelude.{◌≡◌};
ghost use Rattle.ms_outside.specs.Faults.{CountsCall};
ghost use Rattle.ms_outside.specs.refinement.Adapters.{ReadsByte};
ghost use Rattle.ms_outside.specs.refinement.Source.{CountsTake, GivesByte, Takes};
ghost use Rattle.ms_outside.specs.refinement.System.{reader_faults, reader_of, source_device, source_takes};

use crate::count::one_more_call;
use crate::device::ReadDevice;
use crate::source::{Got, Source};
use crate::system::SystemReader;
use std::io::Read;

/// A source over a device, which is read one byte a take: give it one that has a buffer.
///
/// It doesn't tell what is left, since nothing is known of most readers.
#[derive(Drop)]
pub struct StdSource<D> {
    device: D,
    takes: u64,
}

impl<R: Read> StdSource<SystemReader<R>> {
    /// A source over this reader of the standard library, with no take and no fault so far.
    pub fn new(reader: R) -> StdSource<SystemReader<R>>
        ensures reader { reader_of (source_device result) ≡ reader }
        ensures takes { source_takes result ≡ 0 }
        ensures faults { reader_faults (source_device result) ≡ 0 }
    {
        StdSource {
            device: SystemReader::new(reader, 0),
            takes: 0,
        }
    }

    /// How many takes failed, at most `u64::MAX`.
    pub fn faults(&self) -> u64
        ensures { result ≡ reader_faults (source_device self.now) }
    {
        self.device.faults()
    }
}

impl<D: ReadDevice> Source for StdSource<D> {
    ghost use Rattle.std.specs.Prelude.{None};
    ghost use Rattle.ms_outside.specs.refinement.System.{source_device, source_takes};

    ghost left = { λ _. None };

    ghost takes = { λ s. source_takes s };

    ghost faults = { λ s. D.faults (source_device s) };

    fn take(&mut self) -> Got
        ensures left { Takes result None None }
        ensures byte { GivesByte result }
        ensures takes { CountsCall (source_takes self.old) (source_takes self.new) }
        ensures faults { CountsTake result (D.faults (source_device self.old)) (D.faults (source_device self.new)) }
        ensures reads { ReadsByte result (D.left (source_device self.old)) (D.left (source_device self.new)) }
    {
        self.takes = one_more_call(self.takes);
        let mut byte = [0u8; 1];
        match self.device.read(&mut byte) {
            Ok(0) => Got::End,
            Ok(_) => given(byte[0]),
            Err(_) => Got::Failed,
        }
    }
}

/// The answer that gives this byte.
fn given(byte: u8) -> Got
    ensures is { result ≡ Got.Byte byte }
    ensures byte { GivesByte result }
{
    Got::Byte(byte)
}
