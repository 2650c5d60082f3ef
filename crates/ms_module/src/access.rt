//! Loads and stores, with their widths.

ghost use Rattle.std.specs.Prelude.{◌≡◌};
ghost use Rattle.ms_module.specs.Accesses.{load_bytes, store_bytes};

use ms_handle::Kind;

/// A load, by the type that it gives and the bytes that it reads. `S` extends them by their sign, `U` by zeros.
#[derive(Clone, Copy, PartialEq, Eq)]
pub enum LoadOp {
    I32Load,
    I64Load,
    I32Load8S,
    I32Load8U,
    I32Load16S,
    I32Load16U,
    I64Load8S,
    I64Load8U,
    I64Load16S,
    I64Load16U,
    I64Load32S,
    I64Load32U,
}

impl LoadOp {
    /// How many bytes of memory it reads: 1, 2, 4 or 8.
    pub fn bytes(self) -> u32
        ensures { result ≡ load_bytes self }
    {
        match self {
            LoadOp::I32Load8S | LoadOp::I32Load8U | LoadOp::I64Load8S | LoadOp::I64Load8U => 1,
            LoadOp::I32Load16S | LoadOp::I32Load16U | LoadOp::I64Load16S | LoadOp::I64Load16U => 2,
            LoadOp::I32Load | LoadOp::I64Load32S | LoadOp::I64Load32U => 4,
            LoadOp::I64Load => 8,
        }
    }
}

/// A store, by the type that it takes and the bytes that it writes.
#[derive(Clone, Copy, PartialEq, Eq)]
pub enum StoreOp {
    I32Store,
    I64Store,
    I32Store8,
    I32Store16,
    I64Store8,
    I64Store16,
    I64Store32,
}

impl StoreOp {
    /// How many bytes of memory it writes: 1, 2, 4 or 8.
    pub fn bytes(self) -> u32
        ensures { result ≡ store_bytes self }
    {
        match self {
            StoreOp::I32Store8 | StoreOp::I64Store8 => 1,
            StoreOp::I32Store16 | StoreOp::I64Store16 => 2,
            StoreOp::I32Store | StoreOp::I64Store32 => 4,
            StoreOp::I64Store => 8,
        }
    }
}

/// How a linear access is aligned, and where it is (WebAssembly 1.0, 2.4.4).
#[derive(Clone, Copy, PartialEq, Eq)]
pub struct MemArg {
    /// The address is taken to be a multiple of 2 to this power, which is at most 31 in a body.
    pub align: u32,
    /// What is added to the address.
    pub offset: u32,
}

/// An instruction on the linear memory (WebAssembly 1.0, 2.4.4).
#[derive(Clone, Copy, PartialEq, Eq)]
pub enum Linear {
    /// Reads from an address.
    Load(LoadOp, MemArg),
    /// Writes to an address.
    Store(StoreOp, MemArg),
    /// `memory.size`.
    Size,
    /// `memory.grow`.
    Grow,
}

/// An instruction on handles and segments, in the order of their codes behind E0.
#[derive(Clone, Copy, PartialEq, Eq)]
pub enum Segment {
    /// `handle.null`.
    Null,
    /// `segment.new`.
    New(Kind),
    /// `segment.free`.
    Free(Kind),
    /// `handle.add`, by its scale.
    Add(u32),
    /// `handle.slice`.
    Slice,
    /// `handle.eq`.
    Eq,
    /// `handle.is_null`.
    IsNull,
    /// `handle.diff`.
    Diff,
    /// `handle.load`.
    LoadHandle,
    /// `handle.store`.
    StoreHandle,
    /// `i32.segload` and its kin.
    Load(LoadOp),
    /// `i32.segstore` and its kin.
    Store(StoreOp),
    /// `handle.seal`.
    Seal,
}
