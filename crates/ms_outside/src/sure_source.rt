//! A source that never fails.

ghost use Rattle.std.specs.Prelude.{◌≡◌, ◌≢◌};
ghost use Rattle.ms_outside.specs.Faults.{CountsCall, last_count};
ghost use Rattle.ms_outside.specs.refinement.Source.{CountsTake, GivesByte, Takes};

use crate::source::{Got, Source};
use std::marker::Model;

/// A source over bytes in memory that never fails.
#[derive(Drop)]
pub struct SureSource {
    bytes: Vec<u8>,
    next: usize,
}

impl Model for SureSource {
    ghost use Rattle.std.specs.Prelude.{ℕ, List, drop};

    ghost Value = { List ℕ };

    ghost view = { λ s. drop s.next s.bytes.items };
}

impl SureSource {
    /// A source of these bytes.
    pub fn new(bytes: Vec<u8>) -> SureSource
        ensures { result ≡ bytes.items }
    {
        SureSource { bytes, next: 0 }
    }
}

impl Source for SureSource {
    ghost use Rattle.std.specs.Prelude.{Some};
    ghost use Rattle.ms_outside.specs.Faults.{last_count};

    ghost left = { λ left. Some left };

    ghost takes = { λ _. last_count };

    ghost faults = { λ _. 0 };

    fn take(&mut self) -> Got
        ensures left { Takes result (Some self.old) (Some self.new) }
        ensures byte { GivesByte result }
        ensures takes { CountsCall last_count last_count }
        ensures faults { CountsTake result 0 0 }
        ensures sure { result ≢ Got.Failed }
    {
        match self.bytes.get(self.next) {
            None => Got::End,
            Some(byte) => {
                self.next += 1;
                Got::Byte(*byte)
            }
        }
    }
}
