//! Failed reads, counted by name.

ghost use Rattle.std.specs.Prelude.{◌≡◌, IfOk, OnErr, IsNone};
ghost use Rattle.std.specs.FinMap.{empty, get, insert};
ghost use Rattle.ms_outside.specs.Files.{count_of};
ghost use Rattle.ms_outside.specs.refinement.Script.{one_more};
ghost use Rattle.ms_outside.specs.Shelf.{CountsReadFault};

use crate::count::one_more_fault;
use std::alloc::{AllocError, Global};
use std::collections::BTreeMap;
use std::marker::Model;

/// How many reads of each name have failed.
#[derive(Drop)]
pub struct FaultCounts {
    counts: BTreeMap<String, u64>,
}

impl Model for FaultCounts {
    ghost use Rattle.ms_outside.specs.Files.{Counts};
    ghost use Rattle.ms_outside.specs.refinement.Memory.{counts_code};

    ghost Value = { Counts };

    ghost coded = { counts_code };

    ghost use Rattle.ms_outside.specs.refinement.Kept.{counts_of};

    ghost view = { λ s. counts_of s.counts.entries };
}

impl FaultCounts {
    /// No read has failed.
    pub fn new(alloc: Global) -> FaultCounts
        ensures { result ≡ empty }
    {
        FaultCounts {
            counts: BTreeMap::new(alloc),
        }
    }

    /// How many reads of this name have failed.
    pub fn of(&self, name: &str) -> u64
        ensures { result ≡ count_of self.now name.now }
    {
        self.counts.get(name).copied().unwrap_or(0)
    }

    /// Counts one more for this name. An error, which only a name with no count gives, leaves the counts unchanged.
    pub fn count(&mut self, alloc: Global, name: &str) -> Result<(), AllocError>
        ensures ok { IfOk result (λ _. self.new ≡ insert self.old name.now (one_more (count_of self.old name.now))) }
        ensures rose { IfOk result (λ _. CountsReadFault name.now (count_of self.old) (count_of self.new)) }
        ensures err { OnErr result (self.new ≡ self.old) }
        ensures new_name { OnErr result (IsNone (get self.old name.now)) }
    {
        match self.counts.get_mut(name) {
            None => return self.begin(alloc, name),
            Some(count) => *count = one_more_fault(*count),
        }
        Ok(())
    }

    /// Counts the first fault of a name. An error leaves the counts unchanged.
    fn begin(&mut self, alloc: Global, name: &str) -> Result<(), AllocError>
        ensures ok { IfOk result (λ _. self.new ≡ insert self.old name.now 1) }
        ensures err { OnErr result (self.new ≡ self.old) }
    {
        let key = String::from_str(alloc, name)?;
        self.counts.insert(key, 1)?;
        Ok(())
    }
}
