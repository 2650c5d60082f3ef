//! Which calls of an object in memory fail.

ghost use Rattle.std.specs.Prelude.{◌≡◌, IfOk, OnErr};
ghost use Rattle.ms_outside.specs.Faults.{CountsCall};
ghost use Rattle.ms_outside.specs.refinement.Script.{also_failing, called, next_fails, no_script};

use crate::count::one_more_call;
use std::alloc::{AllocError, Global};
use std::marker::Model;

/// Which calls of an object in memory are to fail, by their numbers from 1, and how many calls there were.
#[derive(Drop)]
pub struct Script {
    failing: Vec<u64>,
    calls: u64,
}

impl Model for Script {
    ghost use Rattle.ms_outside.specs.refinement.Script as words;

    ghost Value = { words.Script };

    ghost view = { λ s. record { failing = s.failing.items; calls = s.calls } };
}

impl Script {
    /// No call is to fail, and there was none.
    pub fn new(alloc: Global) -> Script
        ensures { result ≡ no_script }
    {
        Script {
            failing: Vec::new(alloc),
            calls: 0,
        }
    }

    /// The call of this number is to fail too. An error leaves the script unchanged.
    pub fn fail_at(&mut self, call: u64) -> Result<(), AllocError>
        ensures ok { IfOk result (λ _. self.new ≡ also_failing call self.old) }
        ensures err { OnErr result (self.new ≡ self.old) }
    {
        self.failing.push(call)?;
        Ok(())
    }

    /// Counts the next call, and answers whether it is to fail.
    pub fn call(&mut self) -> bool
        ensures failed { result ≡ next_fails self.old }
        ensures called { self.new ≡ called self.old }
        ensures counts { CountsCall self.old.calls self.new.calls }
    {
        self.calls = one_more_call(self.calls);
        self.failing.contains(&self.calls)
    }
}
