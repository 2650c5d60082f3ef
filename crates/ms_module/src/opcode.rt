//! The opcodes of instructions (WebAssembly 1.0, 5.4), as the one table of the definitions has them. Those of each family stand
//! once, as rows that a macro hands to `item_by_code` or `code_by_item`: so reading and writing are made of the same rows.

ghost use Rattle.std.specs.Prelude.{◌≡◌};
ghost use Rattle.ms_module.specs.Instructions.{by_code, is_float, is_float_type, load_rows, numeric_rows, segment_load_rows, segment_store_rows, store_rows, value_rows};

use crate::access::LoadOp::{self, *};
use crate::access::StoreOp::{self, *};
use crate::numeric::BinOp::*;
use crate::numeric::Numeric::{self, *};
use crate::numeric::RelOp::*;
use crate::numeric::UnOp::*;
use crate::numeric::Width::{W32, W64};
use ms_types::ValType;

/// The item of a code in a table; in a function that answers an option.
#[macro_export]
macro_rules! item_by_code {
    ($code:expr; $($row:literal => $item:expr,)+) => {
        Some(match $code {
            $($row => $item,)+
            _ => return None,
        })
    };
}

/// The code of an item of a table, which has each.
#[macro_export]
macro_rules! code_by_item {
    ($item:expr; $($row:literal => $pattern:pat,)+) => {
        match $item {
            $($pattern => $row,)+
        }
    };
}

/// The numeric instructions but for constants, by their opcodes.
#[macro_export]
macro_rules! numeric_opcodes {
    ($each:ident $given:expr) => {
        $each! {
            $given;
            0x45 => Eqz(W32),
            0x46 => Compare(W32, Eq),
            0x47 => Compare(W32, Ne),
            0x48 => Compare(W32, LtS),
            0x49 => Compare(W32, LtU),
            0x4A => Compare(W32, GtS),
            0x4B => Compare(W32, GtU),
            0x4C => Compare(W32, LeS),
            0x4D => Compare(W32, LeU),
            0x4E => Compare(W32, GeS),
            0x4F => Compare(W32, GeU),
            0x50 => Eqz(W64),
            0x51 => Compare(W64, Eq),
            0x52 => Compare(W64, Ne),
            0x53 => Compare(W64, LtS),
            0x54 => Compare(W64, LtU),
            0x55 => Compare(W64, GtS),
            0x56 => Compare(W64, GtU),
            0x57 => Compare(W64, LeS),
            0x58 => Compare(W64, LeU),
            0x59 => Compare(W64, GeS),
            0x5A => Compare(W64, GeU),
            0x67 => Unary(W32, Clz),
            0x68 => Unary(W32, Ctz),
            0x69 => Unary(W32, Popcnt),
            0x6A => Binary(W32, Add),
            0x6B => Binary(W32, Sub),
            0x6C => Binary(W32, Mul),
            0x6D => Binary(W32, DivS),
            0x6E => Binary(W32, DivU),
            0x6F => Binary(W32, RemS),
            0x70 => Binary(W32, RemU),
            0x71 => Binary(W32, And),
            0x72 => Binary(W32, Or),
            0x73 => Binary(W32, Xor),
            0x74 => Binary(W32, Shl),
            0x75 => Binary(W32, ShrS),
            0x76 => Binary(W32, ShrU),
            0x77 => Binary(W32, Rotl),
            0x78 => Binary(W32, Rotr),
            0x79 => Unary(W64, Clz),
            0x7A => Unary(W64, Ctz),
            0x7B => Unary(W64, Popcnt),
            0x7C => Binary(W64, Add),
            0x7D => Binary(W64, Sub),
            0x7E => Binary(W64, Mul),
            0x7F => Binary(W64, DivS),
            0x80 => Binary(W64, DivU),
            0x81 => Binary(W64, RemS),
            0x82 => Binary(W64, RemU),
            0x83 => Binary(W64, And),
            0x84 => Binary(W64, Or),
            0x85 => Binary(W64, Xor),
            0x86 => Binary(W64, Shl),
            0x87 => Binary(W64, ShrS),
            0x88 => Binary(W64, ShrU),
            0x89 => Binary(W64, Rotl),
            0x8A => Binary(W64, Rotr),
            0xA7 => Wrap,
            0xAC => ExtendS,
            0xAD => ExtendU,
        }
    };
}

/// The loads from the linear memory, by their opcodes.
#[macro_export]
macro_rules! load_opcodes {
    ($each:ident $given:expr) => {
        $each! {
            $given;
            0x28 => I32Load,
            0x29 => I64Load,
            0x2C => I32Load8S,
            0x2D => I32Load8U,
            0x2E => I32Load16S,
            0x2F => I32Load16U,
            0x30 => I64Load8S,
            0x31 => I64Load8U,
            0x32 => I64Load16S,
            0x33 => I64Load16U,
            0x34 => I64Load32S,
            0x35 => I64Load32U,
        }
    };
}

/// The loads from segments, by the byte behind the prefix.
#[macro_export]
macro_rules! segment_load_codes {
    ($each:ident $given:expr) => {
        $each! {
            $given;
            0x0A => I32Load,
            0x0B => I64Load,
            0x0C => I32Load8S,
            0x0D => I32Load8U,
            0x0E => I32Load16S,
            0x0F => I32Load16U,
            0x10 => I64Load8S,
            0x11 => I64Load8U,
            0x12 => I64Load16S,
            0x13 => I64Load16U,
            0x14 => I64Load32S,
            0x15 => I64Load32U,
        }
    };
}

/// The stores into the linear memory, by their opcodes.
#[macro_export]
macro_rules! store_opcodes {
    ($each:ident $given:expr) => {
        $each! {
            $given;
            0x36 => I32Store,
            0x37 => I64Store,
            0x3A => I32Store8,
            0x3B => I32Store16,
            0x3C => I64Store8,
            0x3D => I64Store16,
            0x3E => I64Store32,
        }
    };
}

/// The stores into segments, by the byte behind the prefix.
#[macro_export]
macro_rules! segment_store_codes {
    ($each:ident $given:expr) => {
        $each! {
            $given;
            0x16 => I32Store,
            0x17 => I64Store,
            0x18 => I32Store8,
            0x19 => I32Store16,
            0x1A => I64Store8,
            0x1B => I64Store16,
            0x1C => I64Store32,
        }
    };
}

/// The opcode of `else` (WebAssembly 1.0, 5.4.1).
pub const ELSE_CODE: u8 = 0x05;

/// The opcode of `end` (WebAssembly 1.0, 5.4.1).
pub const END_CODE: u8 = 0x0B;

/// The opcode of each instruction on handles and segments, in front of a second byte.
pub const PREFIX: u8 = 0xE0;

impl Numeric {
    /// The numeric instruction of this opcode, but for constants.
    #[tactic(auto, unfolding(crate::specs::Instructions::numeric_rows))]
    pub fn from_opcode(code: u8) -> Option<Self>
        ensures { result ≡ by_code numeric_rows code }
    {
        numeric_opcodes!(item_by_code code)
    }
}

impl LoadOp {
    /// The load of this opcode.
    #[tactic(auto, unfolding(crate::specs::Instructions::load_rows))]
    pub fn from_opcode(code: u8) -> Option<Self>
        ensures { result ≡ by_code load_rows code }
    {
        load_opcodes!(item_by_code code)
    }

    /// The load from a segment of this byte behind the prefix E0.
    #[tactic(auto, unfolding(crate::specs::Instructions::segment_load_rows))]
    pub fn from_segment_code(code: u8) -> Option<Self>
        ensures { result ≡ by_code segment_load_rows code }
    {
        segment_load_codes!(item_by_code code)
    }
}

impl StoreOp {
    /// The store of this opcode.
    #[tactic(auto, unfolding(crate::specs::Instructions::store_rows))]
    pub fn from_opcode(code: u8) -> Option<Self>
        ensures { result ≡ by_code store_rows code }
    {
        store_opcodes!(item_by_code code)
    }

    /// The store into a segment of this byte behind the prefix E0.
    #[tactic(auto, unfolding(crate::specs::Instructions::segment_store_rows))]
    pub fn from_segment_code(code: u8) -> Option<Self>
        ensures { result ≡ by_code segment_store_rows code }
    {
        segment_store_codes!(item_by_code code)
    }
}

/// The value type of this code (WebAssembly 1.0, 5.3.1).
#[tactic(auto, unfolding(crate::specs::Instructions::value_rows))]
pub fn val_type_from_code(code: u8) -> Option<ValType>
    ensures { result ≡ by_code value_rows code }
{
    match code {
        0x7F => Some(ValType::I32),
        0x7E => Some(ValType::I64),
        0x58 => Some(ValType::Handle),
        _ => None,
    }
}

/// Whether the code is that of a floating-point type.
pub fn is_float_type(code: u8) -> bool
    ensures { result ≡ is_float_type code }
{
    code == 0x7D || code == 0x7C
}

/// Whether the opcode is that of a floating-point instruction.
pub fn is_float_opcode(code: u8) -> bool
    ensures { result ≡ is_float code }
{
    matches!(
        code,
        0x2A..=0x2B
            | 0x38..=0x39
            | 0x43..=0x44
            | 0x5B..=0x66
            | 0x8B..=0xA6
            | 0xA8..=0xAB
            | 0xAE..=0xBF
    )
}
