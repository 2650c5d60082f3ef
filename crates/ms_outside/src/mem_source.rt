//! A source in memory whose calls fail by a script.

ghost use Rattle.std.specs.Prelude.{◌≡◌, IfOk, OnErr, IsTrue, ◌↔◌};
ghost use Rattle.ms_outside.specs.Faults.{CountsCall};
ghost use Rattle.ms_outside.specs.refinement.Memory.{Input};
ghost use Rattle.ms_outside.specs.refinement.Script.{also_failing, called, counted, next_fails, no_script};
ghost use Rattle.ms_outside.specs.refinement.Source.{CountsTake, GivesByte, Takes};

use crate::count::one_more_fault;
use crate::script::Script;
use crate::source::{Got, Source};
use crate::sure_source::SureSource;
use std::alloc::{AllocError, Global};
use std::marker::Model;

/// A source over bytes in memory, for tests: its calls fail where a script has it.
#[derive(Drop)]
pub struct MemSource {
    content: SureSource,
    script: Script,
    faults: u64,
}

impl Model for MemSource {
    ghost use Rattle.ms_outside.specs.refinement.Memory.{Input};

    ghost Value = { Input };

    ghost view = { λ s. record { left = s.content; script = s.script; faults = s.faults } };
}

impl MemSource {
    /// A source of these bytes, none of whose takes is to fail.
    pub fn new(alloc: Global, bytes: Vec<u8>) -> MemSource
        ensures { result ≡ record { left = bytes.items; script = no_script; faults = 0 } }
    {
        MemSource {
            content: SureSource::new(bytes),
            script: Script::new(alloc),
            faults: 0,
        }
    }

    /// The take of this number, counted from 1, is to fail too. An error leaves the source unchanged.
    pub fn fail_at(&mut self, call: u64) -> Result<(), AllocError>
        ensures ok { IfOk result (λ _. self.new ≡ record self.old { script = also_failing call self.old.script }) }
        ensures err { OnErr result (self.new ≡ self.old) }
    {
        self.script.fail_at(call)
    }

    /// How many takes failed, at most `u64::MAX`.
    pub fn faults(&self) -> u64
        ensures { result ≡ self.now.faults }
    {
        self.faults
    }
}

impl Source for MemSource {
    ghost use Rattle.std.specs.Prelude.{Some};

    ghost left = { λ s. Some s.left };

    ghost takes = { λ s. s.script.calls };

    ghost faults = { λ s. s.faults };

    fn take(&mut self) -> Got
        ensures left { Takes result (Some self.old.left) (Some self.new.left) }
        ensures byte { GivesByte result }
        ensures takes { CountsCall self.old.script.calls self.new.script.calls }
        ensures faults { CountsTake result self.old.faults self.new.faults }
        ensures failed { (result ≡ Got.Failed) ↔ IsTrue (next_fails self.old.script) }
        ensures script { self.new.script ≡ called self.old.script }
        ensures counted { self.new.faults ≡ counted (next_fails self.old.script) self.old.faults }
    {
        if self.script.call() {
            self.faults = one_more_fault(self.faults);
            return Got::Failed;
        }
        self.content.take()
    }
}
