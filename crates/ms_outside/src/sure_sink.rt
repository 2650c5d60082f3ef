//! A sink that never fails.

ghost use Rattle.std.specs.Prelude.{◌≡◌, ◌≢◌, ◌≤◌, ◌-◌, [], IfOk, length};
ghost use Rattle.ms_outside.specs.refinement.Memory.{Held};
ghost use Rattle.ms_outside.specs.Faults.{CountsCall, last_count};
ghost use Rattle.ms_outside.specs.Sink.{CountsPut, Puts};

use crate::sink::{Put, Sink};
use std::alloc::{AllocError, Global};
use std::marker::Model;

/// A sink that holds its bytes in memory and never fails.
#[derive(Drop)]
pub struct SureSink {
    bytes: Vec<u8>,
    room: usize,
}

impl Model for SureSink {
    ghost use Rattle.std.specs.Prelude.{◌+◌, ◌≤◌, vec_capacity, vec_len};
    ghost use Rattle.ms_outside.specs.refinement.Memory.{Held};

    ghost Value = { Held };

    ghost view = { λ s. record { held = s.bytes.items; room = s.room } };

    ghost invariant = { λ s. vec_len s.bytes + s.room ≤ vec_capacity s.bytes };
}

impl SureSink {
    /// An empty sink with room for this many bytes.
    pub fn new(alloc: Global, room: usize) -> Result<SureSink, AllocError>
        ensures { IfOk result (λ sink. sink ≡ record { held = []; room = room }) }
    {
        let bytes = Vec::with_capacity(alloc, room)?;
        Ok(SureSink { bytes, room })
    }

    /// The bytes that were put.
    pub fn held(&self) -> &[u8]
        ensures { result.now ≡ self.now.held }
    {
        self.bytes.as_slice()
    }
}

impl Sink for SureSink {
    ghost use Rattle.std.specs.Prelude.{Some};
    ghost use Rattle.ms_outside.specs.Faults.{last_count};

    ghost held = { λ s. Some s.held };

    ghost puts = { λ _. last_count };

    ghost faults = { λ _. 0 };

    fn put(&mut self, piece: &[u8]) -> Put
        ensures held { Puts result piece.now (Some self.old.held) (Some self.new.held) }
        ensures puts { CountsCall last_count last_count }
        ensures faults { CountsPut result 0 0 }
        ensures sure { result ≢ Put.Failed }
        ensures stays { result ≢ Put.Done → self.new ≡ self.old }
        ensures reserved { length piece.now ≤ self.old.room → result ≢ Put.Memory }
        ensures room { result ≡ Put.Done → self.new.room ≡ self.old.room - length piece.now }
    {
        match self.bytes.extend_from_slice(piece) {
            Ok(()) => {
                self.room = self.room.saturating_sub(piece.len());
                Put::Done
            }
            Err(_) => Put::Memory,
        }
    }
}
