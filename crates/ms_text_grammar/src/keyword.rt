//! The keywords of instructions and value types (WebAssembly 1.0, 6.5 and 6.4.1), as the one table of the definitions has them. Each stands once,
//! in a row of a macro that hands its rows to what reads or writes them: so both directions are made of the same rows.

use ms_module::{LoadOp, Numeric, StoreOp};

/// What a keyword of an instruction that is no block stands for.
#[derive(Clone, Copy, PartialEq, Eq)]
pub enum Keyword {
    Unreachable,
    Nop,
    Br,
    BrIf,
    BrTable,
    Return,
    Call,
    CallIndirect,
    Drop,
    Select,
    LocalGet,
    LocalSet,
    LocalTee,
    GlobalGet,
    GlobalSet,
    MemorySize,
    MemoryGrow,
    I32Const,
    I64Const,
    Numeric(Numeric),
    Load(LoadOp),
    Store(StoreOp),
    HandleNull,
    SegmentNew,
    SegmentFree,
    HandleAdd,
    HandleSlice,
    HandleEq,
    HandleIsNull,
    HandleDiff,
    HandleLoad,
    HandleStore,
    HandleSeal,
    SegmentLoad(LoadOp),
    SegmentStore(StoreOp),
}

/// What begins an else arm.
pub const ELSE_WORD: &[u8] = b"else";

/// What ends a block.
pub const END_WORD: &[u8] = b"end";

/// What stands in front of the number of an offset, in one token with it.
pub const OFFSET_FRONT: &[u8] = b"offset=";

/// What stands in front of the number of an alignment, in one token with it.
pub const ALIGN_FRONT: &[u8] = b"align=";

/// The item of a word in a table; in a function that answers an option.
#[macro_export]
macro_rules! item_by_word {
    ($text:expr; $($word:literal => $item:expr,)+) => {{
        $(if $text == $word.as_slice() {
            return Some($item);
        })+
        None
    }};
}

/// The word of an item of a table, which has each.
#[macro_export]
macro_rules! word_by_item {
    ($item:expr; $($word:literal => $pattern:pat,)+) => {
        match $item {
            $($pattern => $word,)+
        }
    };
}

/// The value types, by their keywords.
#[macro_export]
macro_rules! value_keywords {
    ($each:ident $given:expr) => {
        $each! {
            $given;
            b"i32" => I32,
            b"i64" => I64,
            b"handle" => Handle,
        }
    };
}

/// What opens a block, by its keyword.
#[macro_export]
macro_rules! opening_keywords {
    ($each:ident $given:expr) => {
        $each! {
            $given;
            b"block" => Block,
            b"loop" => Loop,
            b"if" => If,
        }
    };
}

/// The keywords of instructions that are no blocks: those of one class, which is by their first letters or by those behind `i32.` or `i64.`, or
/// all of them, each class behind those before it.
#[macro_export]
macro_rules! keywords {
    // `i32.` and `a` to `c` behind it
    (i32_a_to_c: $each:ident $($given:tt)*) => {
        $each! {
            $($given)*
            b"i32.const" => I32Const,
            b"i32.clz" => Numeric(Unary(W32, Clz)),
            b"i32.ctz" => Numeric(Unary(W32, Ctz)),
            b"i32.add" => Numeric(Binary(W32, Add)),
            b"i32.and" => Numeric(Binary(W32, And)),
        }
    };
    // `i32.` and `d` to `e` behind it
    (i32_d_to_e: $each:ident $($given:tt)*) => {
        $each! {
            $($given)*
            b"i32.eqz" => Numeric(Eqz(W32)),
            b"i32.eq" => Numeric(Compare(W32, Eq)),
            b"i32.div_s" => Numeric(Binary(W32, DivS)),
            b"i32.div_u" => Numeric(Binary(W32, DivU)),
        }
    };
    // `i32.` and `g` behind it
    (i32_g: $each:ident $($given:tt)*) => {
        $each! {
            $($given)*
            b"i32.gt_s" => Numeric(Compare(W32, GtS)),
            b"i32.gt_u" => Numeric(Compare(W32, GtU)),
            b"i32.ge_s" => Numeric(Compare(W32, GeS)),
            b"i32.ge_u" => Numeric(Compare(W32, GeU)),
        }
    };
    // `i32.` and `le` or `lt` behind it
    (i32_le_to_lt: $each:ident $($given:tt)*) => {
        $each! {
            $($given)*
            b"i32.lt_s" => Numeric(Compare(W32, LtS)),
            b"i32.lt_u" => Numeric(Compare(W32, LtU)),
            b"i32.le_s" => Numeric(Compare(W32, LeS)),
            b"i32.le_u" => Numeric(Compare(W32, LeU)),
        }
    };
    // `i32.` and `lo` behind it
    (i32_lo: $each:ident $($given:tt)*) => {
        $each! {
            $($given)*
            b"i32.load" => Load(I32Load),
            b"i32.load8_s" => Load(I32Load8S),
            b"i32.load8_u" => Load(I32Load8U),
            b"i32.load16_s" => Load(I32Load16S),
            b"i32.load16_u" => Load(I32Load16U),
        }
    };
    // `i32.` and `m` to `p` behind it
    (i32_m_to_p: $each:ident $($given:tt)*) => {
        $each! {
            $($given)*
            b"i32.ne" => Numeric(Compare(W32, Ne)),
            b"i32.popcnt" => Numeric(Unary(W32, Popcnt)),
            b"i32.mul" => Numeric(Binary(W32, Mul)),
            b"i32.or" => Numeric(Binary(W32, Or)),
        }
    };
    // `i32.` and `r` behind it
    (i32_r: $each:ident $($given:tt)*) => {
        $each! {
            $($given)*
            b"i32.rem_s" => Numeric(Binary(W32, RemS)),
            b"i32.rem_u" => Numeric(Binary(W32, RemU)),
            b"i32.rotl" => Numeric(Binary(W32, Rotl)),
            b"i32.rotr" => Numeric(Binary(W32, Rotr)),
        }
    };
    // `i32.` and `s` behind it, but not `se`
    (i32_s: $each:ident $($given:tt)*) => {
        $each! {
            $($given)*
            b"i32.sub" => Numeric(Binary(W32, Sub)),
            b"i32.shl" => Numeric(Binary(W32, Shl)),
            b"i32.shr_s" => Numeric(Binary(W32, ShrS)),
            b"i32.shr_u" => Numeric(Binary(W32, ShrU)),
            b"i32.store" => Store(I32Store),
            b"i32.store8" => Store(I32Store8),
            b"i32.store16" => Store(I32Store16),
        }
    };
    // `i32.` and `se` behind it
    (i32_se: $each:ident $($given:tt)*) => {
        $each! {
            $($given)*
            b"i32.segload" => SegmentLoad(I32Load),
            b"i32.segload8_s" => SegmentLoad(I32Load8S),
            b"i32.segload8_u" => SegmentLoad(I32Load8U),
            b"i32.segload16_s" => SegmentLoad(I32Load16S),
            b"i32.segload16_u" => SegmentLoad(I32Load16U),
            b"i32.segstore" => SegmentStore(I32Store),
            b"i32.segstore8" => SegmentStore(I32Store8),
            b"i32.segstore16" => SegmentStore(I32Store16),
        }
    };
    // `i32.` and `w` to `x` behind it
    (i32_w_to_x: $each:ident $($given:tt)*) => {
        $each! {
            $($given)*
            b"i32.xor" => Numeric(Binary(W32, Xor)),
            b"i32.wrap_i64" => Numeric(Wrap),
        }
    };
    // `i64.` and `a` to `c` behind it
    (i64_a_to_c: $each:ident $($given:tt)*) => {
        $each! {
            $($given)*
            b"i64.const" => I64Const,
            b"i64.clz" => Numeric(Unary(W64, Clz)),
            b"i64.ctz" => Numeric(Unary(W64, Ctz)),
            b"i64.add" => Numeric(Binary(W64, Add)),
            b"i64.and" => Numeric(Binary(W64, And)),
        }
    };
    // `i64.` and `d` to `e` behind it
    (i64_d_to_e: $each:ident $($given:tt)*) => {
        $each! {
            $($given)*
            b"i64.eqz" => Numeric(Eqz(W64)),
            b"i64.eq" => Numeric(Compare(W64, Eq)),
            b"i64.div_s" => Numeric(Binary(W64, DivS)),
            b"i64.div_u" => Numeric(Binary(W64, DivU)),
            b"i64.extend_i32_s" => Numeric(ExtendS),
            b"i64.extend_i32_u" => Numeric(ExtendU),
        }
    };
    // `i64.` and `g` behind it
    (i64_g: $each:ident $($given:tt)*) => {
        $each! {
            $($given)*
            b"i64.gt_s" => Numeric(Compare(W64, GtS)),
            b"i64.gt_u" => Numeric(Compare(W64, GtU)),
            b"i64.ge_s" => Numeric(Compare(W64, GeS)),
            b"i64.ge_u" => Numeric(Compare(W64, GeU)),
        }
    };
    // `i64.` and `le` or `lt` behind it
    (i64_le_to_lt: $each:ident $($given:tt)*) => {
        $each! {
            $($given)*
            b"i64.lt_s" => Numeric(Compare(W64, LtS)),
            b"i64.lt_u" => Numeric(Compare(W64, LtU)),
            b"i64.le_s" => Numeric(Compare(W64, LeS)),
            b"i64.le_u" => Numeric(Compare(W64, LeU)),
        }
    };
    // `i64.` and `lo` behind it
    (i64_lo: $each:ident $($given:tt)*) => {
        $each! {
            $($given)*
            b"i64.load" => Load(I64Load),
            b"i64.load8_s" => Load(I64Load8S),
            b"i64.load8_u" => Load(I64Load8U),
            b"i64.load16_s" => Load(I64Load16S),
            b"i64.load16_u" => Load(I64Load16U),
            b"i64.load32_s" => Load(I64Load32S),
            b"i64.load32_u" => Load(I64Load32U),
        }
    };
    // `i64.` and `m` to `p` behind it
    (i64_m_to_p: $each:ident $($given:tt)*) => {
        $each! {
            $($given)*
            b"i64.ne" => Numeric(Compare(W64, Ne)),
            b"i64.popcnt" => Numeric(Unary(W64, Popcnt)),
            b"i64.mul" => Numeric(Binary(W64, Mul)),
            b"i64.or" => Numeric(Binary(W64, Or)),
        }
    };
    // `i64.` and `r` behind it
    (i64_r: $each:ident $($given:tt)*) => {
        $each! {
            $($given)*
            b"i64.rem_s" => Numeric(Binary(W64, RemS)),
            b"i64.rem_u" => Numeric(Binary(W64, RemU)),
            b"i64.rotl" => Numeric(Binary(W64, Rotl)),
            b"i64.rotr" => Numeric(Binary(W64, Rotr)),
        }
    };
    // `i64.` and `s` behind it, but not `se`
    (i64_s: $each:ident $($given:tt)*) => {
        $each! {
            $($given)*
            b"i64.sub" => Numeric(Binary(W64, Sub)),
            b"i64.shl" => Numeric(Binary(W64, Shl)),
            b"i64.shr_s" => Numeric(Binary(W64, ShrS)),
            b"i64.shr_u" => Numeric(Binary(W64, ShrU)),
            b"i64.store" => Store(I64Store),
            b"i64.store8" => Store(I64Store8),
            b"i64.store16" => Store(I64Store16),
            b"i64.store32" => Store(I64Store32),
        }
    };
    // `i64.` and `se` behind it
    (i64_se: $each:ident $($given:tt)*) => {
        $each! {
            $($given)*
            b"i64.segload" => SegmentLoad(I64Load),
            b"i64.segload8_s" => SegmentLoad(I64Load8S),
            b"i64.segload8_u" => SegmentLoad(I64Load8U),
            b"i64.segload16_s" => SegmentLoad(I64Load16S),
            b"i64.segload16_u" => SegmentLoad(I64Load16U),
            b"i64.segload32_s" => SegmentLoad(I64Load32S),
            b"i64.segload32_u" => SegmentLoad(I64Load32U),
            b"i64.segstore" => SegmentStore(I64Store),
            b"i64.segstore8" => SegmentStore(I64Store8),
            b"i64.segstore16" => SegmentStore(I64Store16),
            b"i64.segstore32" => SegmentStore(I64Store32),
        }
    };
    // `i64.` and `x` behind it
    (i64_x: $each:ident $($given:tt)*) => {
        $each! {
            $($given)*
            b"i64.xor" => Numeric(Binary(W64, Xor)),
        }
    };
    // `b` to `d` in front
    (b_to_d: $each:ident $($given:tt)*) => {
        $each! {
            $($given)*
            b"br" => Br,
            b"br_if" => BrIf,
            b"br_table" => BrTable,
            b"call" => Call,
            b"call_indirect" => CallIndirect,
            b"drop" => Drop,
        }
    };
    // `g` or `l` in front
    (g_or_l: $each:ident $($given:tt)*) => {
        $each! {
            $($given)*
            b"local.get" => LocalGet,
            b"local.set" => LocalSet,
            b"local.tee" => LocalTee,
            b"global.get" => GlobalGet,
            b"global.set" => GlobalSet,
        }
    };
    // `h` in front
    (h: $each:ident $($given:tt)*) => {
        $each! {
            $($given)*
            b"handle.null" => HandleNull,
            b"handle.add" => HandleAdd,
            b"handle.slice" => HandleSlice,
            b"handle.eq" => HandleEq,
            b"handle.is_null" => HandleIsNull,
            b"handle.diff" => HandleDiff,
            b"handle.load" => HandleLoad,
            b"handle.store" => HandleStore,
            b"handle.seal" => HandleSeal,
        }
    };
    // `m` to `r` in front
    (m_to_r: $each:ident $($given:tt)*) => {
        $each! {
            $($given)*
            b"nop" => Nop,
            b"return" => Return,
            b"memory.size" => MemorySize,
            b"memory.grow" => MemoryGrow,
        }
    };
    // `s` to `u` in front
    (s_to_u: $each:ident $($given:tt)*) => {
        $each! {
            $($given)*
            b"unreachable" => Unreachable,
            b"select" => Select,
            b"segment.new" => SegmentNew,
            b"segment.free" => SegmentFree,
        }
    };
    ($each:ident $given:expr) => {
        keywords! {
            i32_a_to_c: keywords
            i32_d_to_e: keywords
            i32_g: keywords
            i32_le_to_lt: keywords
            i32_lo: keywords
            i32_m_to_p: keywords
            i32_r: keywords
            i32_s: keywords
            i32_se: keywords
            i32_w_to_x: keywords
            i64_a_to_c: keywords
            i64_d_to_e: keywords
            i64_g: keywords
            i64_le_to_lt: keywords
            i64_lo: keywords
            i64_m_to_p: keywords
            i64_r: keywords
            i64_s: keywords
            i64_se: keywords
            i64_x: keywords
            b_to_d: keywords
            g_or_l: keywords
            h: keywords
            m_to_r: keywords
            s_to_u: $each $given;
        }
    };
}
