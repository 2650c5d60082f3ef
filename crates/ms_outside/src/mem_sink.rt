//! A sink in memory whose calls fail by a script.

ghost use Rattle.std.specs.Prelude.{◌≡◌, ◌≢◌, ◌≤◌, ◌-◌, [], IfOk, OnErr, IsTrue, ◌↔◌, length};
ghost use Rattle.ms_outside.specs.Faults.{CountsCall};
ghost use Rattle.ms_outside.specs.refinement.Memory.{Output};
ghost use Rattle.ms_outside.specs.refinement.Script.{also_failing, called, counted, next_fails, no_script};
ghost use Rattle.ms_outside.specs.Sink.{CountsPut, Puts};

use crate::count::one_more_fault;
use crate::script::Script;
use crate::sink::{Put, Sink};
use crate::sure_sink::SureSink;
use std::alloc::{AllocError, Global};
use std::marker::Model;

/// A sink that holds its bytes in memory, for tests: its calls fail where a script has it.
#[derive(Drop)]
pub struct MemSink {
    content: SureSink,
    script: Script,
    faults: u64,
}

impl Model for MemSink {
    ghost use Rattle.ms_outside.specs.refinement.Memory.{Output};

    ghost Value = { Output };

    ghost view = { λ s. record { held = s.content.held; room = s.content.room; script = s.script; faults = s.faults } };
}

impl MemSink {
    /// An empty sink with room for this many bytes, none of whose puts is to fail.
    pub fn new(alloc: Global, room: usize) -> Result<MemSink, AllocError>
        ensures { IfOk result (λ sink. sink ≡ record { held = []; room = room; script = no_script; faults = 0 }) }
    {
        let content = SureSink::new(alloc, room)?;
        Ok(MemSink {
            content,
            script: Script::new(alloc),
            faults: 0,
        })
    }

    /// The put of this number, counted from 1, is to fail too. An error leaves the sink unchanged.
    pub fn fail_at(&mut self, call: u64) -> Result<(), AllocError>
        ensures ok { IfOk result (λ _. self.new ≡ record self.old { script = also_failing call self.old.script }) }
        ensures err { OnErr result (self.new ≡ self.old) }
    {
        self.script.fail_at(call)
    }

    /// How many puts failed, at most `u64::MAX`.
    pub fn faults(&self) -> u64
        ensures { result ≡ self.now.faults }
    {
        self.faults
    }

    /// The bytes that were put.
    pub fn held(&self) -> &[u8]
        ensures { result.now ≡ self.now.held }
    {
        self.content.held()
    }
}

impl Sink for MemSink {
    ghost use Rattle.std.specs.Prelude.{Some};

    ghost held = { λ s. Some s.held };

    ghost puts = { λ s. s.script.calls };

    ghost faults = { λ s. s.faults };

    fn put(&mut self, piece: &[u8]) -> Put
        ensures held { Puts result piece.now (Some self.old.held) (Some self.new.held) }
        ensures puts { CountsCall self.old.script.calls self.new.script.calls }
        ensures faults { CountsPut result self.old.faults self.new.faults }
        ensures failed { (result ≡ Put.Failed) ↔ IsTrue (next_fails self.old.script) }
        ensures script { self.new.script ≡ called self.old.script }
        ensures counted { self.new.faults ≡ counted (next_fails self.old.script) self.old.faults }
        ensures stays { result ≢ Put.Done → (self.new.held ≡ self.old.held) × (self.new.room ≡ self.old.room) }
        ensures reserved { length piece.now ≤ self.old.room → result ≢ Put.Memory }
        ensures room { result ≡ Put.Done → self.new.room ≡ self.old.room - length piece.now }
    {
        if self.script.call() {
            self.faults = one_more_fault(self.faults);
            return Put::Failed;
        }
        self.content.put(piece)
    }
}
