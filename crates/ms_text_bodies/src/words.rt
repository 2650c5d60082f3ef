//! Keywords by their classes, those of `Classes.antt`.
#![tactic(auto, unfolding(crate::specs::refinement::Classes::rows_in, crate::specs::refinement::Classes::class_of, ms_text_grammar::specs::Instructions::form_rows, ms_module::specs::Instructions::operand_rows, ms_module::specs::Instructions::numeric_rows, ms_module::specs::Instructions::load_rows, ms_module::specs::Instructions::store_rows, ms_module::specs::Instructions::segment_rows, ms_module::specs::Instructions::segment_load_rows, ms_module::specs::Instructions::segment_store_rows))]

ghost use Rattle.std.specs.Prelude.{◌≤◌, codes};
ghost use Rattle.ms_module.specs.Instructions.{by_word};
ghost use Rattle.ms_text_bodies.specs.refinement.Classes.{Finds, rows_in};

use ms_module::BinOp::*;
use ms_module::LoadOp::*;
use ms_module::Numeric::*;
use ms_module::RelOp::*;
use ms_module::StoreOp::*;
use ms_module::UnOp::*;
use ms_module::Width::{W32, W64};
use ms_text_grammar::Keyword::{self, *};
use ms_text_grammar::{item_by_word, keywords};

/// The keyword of this class that a text is, if it is one, where those of the class begin with `i32.`.
pub fn narrow_word(class: u8, text: &[u8]) -> Option<Keyword>
    requires { class ≤ 9 }
    ensures { Finds result (by_word (rows_in class) text.now) }
{
    match class {
        0 => keywords!(i32_a_to_c: item_by_word text;),
        1 => keywords!(i32_d_to_e: item_by_word text;),
        2 => keywords!(i32_g: item_by_word text;),
        3 => keywords!(i32_le_to_lt: item_by_word text;),
        4 => keywords!(i32_lo: item_by_word text;),
        5 => keywords!(i32_m_to_p: item_by_word text;),
        6 => keywords!(i32_r: item_by_word text;),
        7 => keywords!(i32_s: item_by_word text;),
        8 => keywords!(i32_se: item_by_word text;),
        _ => keywords!(i32_w_to_x: item_by_word text;),
    }
}

/// The keyword that a text is, if it is one that begins with `i64.se`. They are too many for the function of the classes beside them.
fn wide_segment_word(text: &[u8]) -> Option<Keyword>
    ensures { Finds result (by_word (rows_in 18) text.now) }
{
    keywords!(i64_se: item_by_word text;)
}

/// The keyword of this class that a text is, if it is one, where those of the class begin with `i64.`.
pub fn wide_word(class: u8, text: &[u8]) -> Option<Keyword>
    requires low { 10 ≤ class }
    requires high { class ≤ 19 }
    ensures { Finds result (by_word (rows_in class) text.now) }
{
    match class {
        10 => keywords!(i64_a_to_c: item_by_word text;),
        11 => keywords!(i64_d_to_e: item_by_word text;),
        12 => keywords!(i64_g: item_by_word text;),
        13 => keywords!(i64_le_to_lt: item_by_word text;),
        14 => keywords!(i64_lo: item_by_word text;),
        15 => keywords!(i64_m_to_p: item_by_word text;),
        16 => keywords!(i64_r: item_by_word text;),
        17 => keywords!(i64_s: item_by_word text;),
        18 => wide_segment_word(text),
        _ => keywords!(i64_x: item_by_word text;),
    }
}

/// The keyword of this class that a text is, if it is one, where those of the class have no width in front.
pub fn other_word(class: u8, text: &[u8]) -> Option<Keyword>
    requires low { 20 ≤ class }
    requires high { class ≤ 24 }
    ensures { Finds result (by_word (rows_in class) text.now) }
{
    match class {
        20 => keywords!(b_to_d: item_by_word text;),
        21 => keywords!(g_or_l: item_by_word text;),
        22 => keywords!(h: item_by_word text;),
        23 => keywords!(m_to_r: item_by_word text;),
        _ => keywords!(s_to_u: item_by_word text;),
    }
}
