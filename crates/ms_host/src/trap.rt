//! The kinds of traps.

ghost use Rattle.std.specs.Prelude.{◌≡◌};
ghost use Rattle.ms_host.specs.Words.{trap_word};

/// Why a program was stopped.
#[derive(Clone, Copy, PartialEq, Eq)]
pub enum TrapKind {
    /// The instruction `unreachable`.
    Unreachable,
    /// A division by zero.
    Zero,
    /// A quotient that doesn't fit.
    Overflow,
    /// An access outside the linear memory.
    Linear,
    /// A call through an index outside the table.
    Table,
    /// A call through an empty entry of the table.
    Element,
    /// A call through an entry of another type.
    Signature,
    /// A call that would be too deep.
    Depth,
    /// A call of the host's `abort`.
    Abort,
    /// An access through the null handle.
    Null,
    /// An access through a broken handle.
    Invalid,
    /// An access to a segment that has ended.
    Freed,
    /// An access outside the handle's bound.
    Bounds,
    /// An access for a handle at an address that is no multiple of 16.
    Misaligned,
    /// A store or a free through a sealed handle.
    Readonly,
    /// A load of a number where a piece of a handle stands.
    Provenance,
    /// A free through a handle that is to a part of a segment, or isn't at its start.
    Whole,
    /// A free of a segment that was made as another kind.
    Kind,
    /// The distance of handles that aren't both of one segment.
    Apart,
}

impl TrapKind {
    /// The trap's word, as reports have it.
    pub fn word(self) -> &'static str
        ensures { result.now ≡ trap_word self }
    {
        match self {
            TrapKind::Unreachable => "unreachable",
            TrapKind::Zero => "zero",
            TrapKind::Overflow => "overflow",
            TrapKind::Linear => "linear",
            TrapKind::Table => "table",
            TrapKind::Element => "element",
            TrapKind::Signature => "signature",
            TrapKind::Depth => "depth",
            TrapKind::Abort => "abort",
            TrapKind::Null => "null",
            TrapKind::Invalid => "invalid",
            TrapKind::Freed => "freed",
            TrapKind::Bounds => "bounds",
            TrapKind::Misaligned => "misaligned",
            TrapKind::Readonly => "readonly",
            TrapKind::Provenance => "provenance",
            TrapKind::Whole => "whole",
            TrapKind::Kind => "kind",
            TrapKind::Apart => "apart",
        }
    }
}
