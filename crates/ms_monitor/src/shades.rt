//! The shades that were sliced or sealed.

ghost use Rattle.std.specs.Prelude.{◌≡◌, [], Contains, ◌↔◌, IsTrue, OnOk, OnErr};
ghost use Rattle.ms_monitor.specs.refinement.Shades.{Learns, shade_of};

use std::alloc::{AllocError, Global};
use std::collections::BTreeSet;
use std::marker::Model;

/// A part of an allocation, from `lo` to `hi`, counted from its beginning, `hi` excluded, and its sort.
#[derive(Clone, Copy, PartialEq, Eq, PartialOrd, Ord)]
pub(crate) struct Part {
    /// The identity of its colour.
    pub colour: u64,
    pub lo: u32,
    pub hi: u32,
    /// Whether it may be read through alone.
    pub sealed: bool,
}

/// The shades that were sliced or sealed, each once. Contracts see the list of them.
#[derive(Drop)]
pub(crate) struct Shades {
    parts: BTreeSet<Part>,
}

impl Model for Shades {
    ghost use Rattle.std.specs.Prelude.{List, map};
    ghost use Rattle.ms_event.specs.Monitor.{Shade};
    ghost use Rattle.ms_monitor.specs.refinement.Shades.{shade_of};

    ghost Value = { List Shade };

    ghost view = { λ s. map shade_of s.parts.keys };
}

impl Shades {
    /// No shade.
    pub fn new(alloc: Global) -> Self
        ensures { result ≡ [] }
    {
        Shades {
            parts: BTreeSet::new(alloc),
        }
    }

    /// Whether the shade was sliced or sealed.
    pub fn contains(&self, part: Part) -> bool
        ensures { IsTrue result ↔ Contains self.now (shade_of part) }
    {
        self.parts.contains(&part)
    }

    /// A shade more, which may have been there before. After an error nothing has changed.
    pub fn add(&mut self, part: Part) -> Result<(), AllocError>
        ensures ok { OnOk result (Learns self.old self.new (shade_of part)) }
        ensures err { OnErr result (self.new ≡ self.old) }
    {
        self.parts.insert(part)?;
        Ok(())
    }
}
