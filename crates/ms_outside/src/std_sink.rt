//! A sink over a device.

ghost use Rattle.std.specs.Prelude.{◌≡◌};
ghost use Rattle.ms_outside.specs.Faults.{CountsCall};
ghost use Rattle.ms_outside.specs.refinement.Adapters.{Flushes, WritesPiece};
ghost use Rattle.ms_outside.specs.Sink.{CountsPut, Puts};
ghost use Rattle.ms_outside.specs.refinement.System.{sink_device, sink_puts, writer_faults, writer_of};

use crate::count::one_more_call;
use crate::device::WriteDevice;
use crate::sink::{Put, Sink};
use crate::system::SystemWriter;
use std::io::Write;

/// A sink over a device, which is flushed after each put.
///
/// It doesn't tell what it holds, since nothing is known of most writers.
#[derive(Drop)]
pub struct StdSink<D> {
    device: D,
    puts: u64,
}

impl<W: Write> StdSink<SystemWriter<W>> {
    /// A sink over this writer of the standard library, with no put and no fault so far.
    pub fn new(writer: W) -> StdSink<SystemWriter<W>>
        ensures writer { writer_of (sink_device result) ≡ writer }
        ensures puts { sink_puts result ≡ 0 }
        ensures faults { writer_faults (sink_device result) ≡ 0 }
    {
        StdSink {
            device: SystemWriter::new(writer, 0),
            puts: 0,
        }
    }

    /// How many puts failed, at most `u64::MAX`.
    pub fn faults(&self) -> u64
        ensures { result ≡ writer_faults (sink_device self.now) }
    {
        self.device.faults()
    }
}

impl<D: WriteDevice> Sink for StdSink<D> {
    ghost use Rattle.std.specs.Prelude.{None};
    ghost use Rattle.ms_outside.specs.refinement.System.{sink_device, sink_puts};

    ghost held = { λ _. None };

    ghost puts = { λ s. sink_puts s };

    ghost faults = { λ s. D.faults (sink_device s) };

    /// Writes the piece, and flushes the device. A failed flush, too, is a fault, and so is a writer that takes nothing.
    fn put(&mut self, piece: &[u8]) -> Put
        ensures held { Puts result piece.now None None }
        ensures puts { CountsCall (sink_puts self.old) (sink_puts self.new) }
        ensures faults { CountsPut result (D.faults (sink_device self.old)) (D.faults (sink_device self.new)) }
        ensures writes { WritesPiece result piece.now (D.held (sink_device self.old)) (D.held (sink_device self.new)) }
        ensures flushed { Flushes D.is_flushed result (sink_device self.new) }
    {
        self.puts = one_more_call(self.puts);
        write_and_flush(&mut self.device, piece)
    }
}

/// Writes the whole piece, and flushes the device.
pub(crate) fn write_and_flush<D: WriteDevice>(device: &mut D, piece: &[u8]) -> Put
    ensures faults { CountsPut result (D.faults device.old) (D.faults device.new) }
    ensures writes { WritesPiece result piece.now (D.held device.old) (D.held device.new) }
    ensures flushed { Flushes D.is_flushed result device.new }
{
    let mut rest = piece;
    while !rest.is_empty() {
        match device.write(rest) {
            Ok(n) => rest = &rest[n..],
            Err(_) => return Put::Failed,
        }
    }
    match device.flush() {
        Ok(()) => Put::Done,
        Err(_) => Put::Failed,
    }
}
