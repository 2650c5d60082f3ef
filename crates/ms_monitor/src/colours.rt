//! The colours of a trace.

ghost use Rattle.std.specs.Prelude.{◌≡◌, ◌+◌, ◌<◌, [], Some, None, IfOk, OnOk, OnErr, IsSome, true};
ghost use Rattle.std.specs.BTreeMap.{Updates};
ghost use Rattle.std.specs.Ordering.{nat_cmp};
ghost use Rattle.ms_event.specs.Monitor.{most_live};
ghost use Rattle.ms_monitor.specs.refinement.Colours.{Adds, Ends, IsPutOut, colour_of, live_in};

use std::alloc::{AllocError, Global};
use std::collections::BTreeMap;
use std::marker::Model;

/// The colour of an allocation, which is kept when the allocation has ended.
#[derive(Clone, Copy, PartialEq, Eq)]
pub(crate) struct Colour {
    /// The address of the first byte.
    pub base: u32,
    /// How many bytes there are.
    pub size: u32,
    pub is_live: bool,
}

/// All colours used so far, by their identities. Contracts see the list of them.
#[derive(Drop)]
pub(crate) struct Colours {
    by_id: BTreeMap<u64, Colour>,
    /// How many are live.
    live: u32,
}

impl Model for Colours {
    ghost use Rattle.std.specs.Prelude.{◌≡◌, ℕ, List};
    ghost use Rattle.ms_monitor.specs.declared.colours.Colour.{Colour};
    ghost use Rattle.ms_monitor.specs.refinement.Colours.{live_in};

    ghost Value = { List (ℕ × Colour) };

    ghost view = { λ c. c.by_id.entries };

    ghost invariant = { λ c. c.live ≡ live_in c.by_id.entries };
}

impl Colours {
    /// No colour.
    pub fn new(alloc: Global) -> Self
        ensures { result ≡ [] }
    {
        Colours {
            by_id: BTreeMap::new(alloc),
            live: 0,
        }
    }

    /// How many colours are live.
    pub fn live(&self) -> u32
        ensures { result ≡ live_in self.now }
    {
        self.live
    }

    /// The colour of this identity. `None` where it was never used.
    pub fn find(&self, id: u64) -> Option<Colour>
        ensures { result ≡ colour_of self.now id }
    {
        self.by_id.get(&id).copied()
    }

    /// A new colour, which is live. After an error nothing has changed.
    pub fn add(&mut self, id: u64, base: u32, size: u32) -> Result<(), AllocError>
        requires absent { colour_of self.old id ≡ None }
        requires few { live_in self.old < most_live }
        ensures ok { OnOk result (Adds self.old self.new id (record { base = base; size = size; is_live = true })) }
        ensures err { OnErr result (self.new ≡ self.old) }
    {
        let colour = Colour {
            base,
            size,
            is_live: true,
        };
        self.by_id.insert(id, colour)?;
        self.live += 1;
        Ok(())
    }

    /// The allocation of this colour, which is live, has ended.
    pub fn end(&mut self, id: u64, colour: Colour)
        requires found { colour_of self.old id ≡ Some colour }
        requires live { colour.is_live ≡ true }
        ensures { Ends self.old self.new id colour }
    {
        put_out(&mut self.by_id, id);
        self.live -= 1;
    }
}

/// The colour of this identity is live no more.
fn put_out(by_id: &mut BTreeMap<u64, Colour>, id: u64)
    requires { IsSome (colour_of by_id.old.entries id) }
    ensures { IsPutOut by_id.old by_id.new id }
{
    if let Some(colour) = by_id.get_mut(&id) {
        colour.is_live = false;
    }
}
