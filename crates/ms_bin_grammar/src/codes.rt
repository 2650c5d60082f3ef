//! Opcodes (WebAssembly 1.0, 5.4) of the instructions that are of no family, and bytes that tell kinds and forms of types, of which reading
//! and writing are made. The families (numeric instructions, loads, stores) stand in `ms_module/src/opcode.rt`, and so do `else`, `end` and the prefix.

/// Instructions of one byte.
pub mod opcodes {
    /// `unreachable`.
    pub const UNREACHABLE: u8 = 0x00;

    /// `nop`.
    pub const NOP: u8 = 0x01;

    /// `block`.
    pub const BLOCK: u8 = 0x02;

    /// `loop`.
    pub const LOOP: u8 = 0x03;

    /// `if`.
    pub const IF: u8 = 0x04;

    /// `br`.
    pub const BR: u8 = 0x0C;

    /// `br_if`.
    pub const BR_IF: u8 = 0x0D;

    /// `br_table`.
    pub const BR_TABLE: u8 = 0x0E;

    /// `return`.
    pub const RETURN: u8 = 0x0F;

    /// `call`.
    pub const CALL: u8 = 0x10;

    /// `call_indirect`.
    pub const CALL_INDIRECT: u8 = 0x11;

    /// `drop`.
    pub const DROP: u8 = 0x1A;

    /// `select`.
    pub const SELECT: u8 = 0x1B;

    /// `local.get`.
    pub const LOCAL_GET: u8 = 0x20;

    /// `local.set`.
    pub const LOCAL_SET: u8 = 0x21;

    /// `local.tee`.
    pub const LOCAL_TEE: u8 = 0x22;

    /// `global.get`.
    pub const GLOBAL_GET: u8 = 0x23;

    /// `global.set`.
    pub const GLOBAL_SET: u8 = 0x24;

    /// `memory.size`.
    pub const MEMORY_SIZE: u8 = 0x3F;

    /// `memory.grow`.
    pub const MEMORY_GROW: u8 = 0x40;

    /// `i32.const`.
    pub const I32_CONST: u8 = 0x41;

    /// `i64.const`.
    pub const I64_CONST: u8 = 0x42;
}

/// What stands behind the prefix of an instruction on handles or segments.
pub mod segment_codes {
    /// `handle.null`.
    pub const HANDLE_NULL: u8 = 0x00;

    /// `segment.new`.
    pub const SEGMENT_NEW: u8 = 0x01;

    /// `segment.free`.
    pub const SEGMENT_FREE: u8 = 0x02;

    /// `handle.add`.
    pub const HANDLE_ADD: u8 = 0x03;

    /// `handle.slice`.
    pub const HANDLE_SLICE: u8 = 0x04;

    /// `handle.eq`.
    pub const HANDLE_EQ: u8 = 0x05;

    /// `handle.is_null`.
    pub const HANDLE_IS_NULL: u8 = 0x06;

    /// `handle.diff`.
    pub const HANDLE_DIFF: u8 = 0x07;

    /// `handle.load`.
    pub const HANDLE_LOAD: u8 = 0x08;

    /// `handle.store`.
    pub const HANDLE_STORE: u8 = 0x09;

    /// `handle.seal`.
    pub const HANDLE_SEAL: u8 = 0x1D;
}

/// The kind of a segment of the heap.
pub const HEAP: u8 = 0x00;

/// The kind of a segment of a frame.
pub const FRAME: u8 = 0x01;

/// The type of a block that gives nothing.
pub const NO_RESULT: u8 = 0x40;

/// A function type (5.3.3).
pub const FUNC_TYPE: u8 = 0x60;

/// The type of a table's entries (5.3.7).
pub const ANY_FUNC: u8 = 0x70;
