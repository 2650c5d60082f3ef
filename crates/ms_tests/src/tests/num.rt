//! Vectors from outside. What each operation gives is proved for all numbers.

use ms_num::{
    Arith, add, clz, div_s, extend, lt_s, mul, narrow, popcnt, rem_s, rem_u, rotl, rotr, shr_s,
};

#[test]
fn sums_products_and_quotients(rt: HostRuntime) {
    assert_eq!(rt; add(32, 0xFFFF_FFFF, 1), 0);
    assert_eq!(rt; mul(64, 0x1_0000_0000, 0x1_0000_0000), 0);
    assert!(rt; div_s(32, 0xFFFF_FFF9, 2) == Ok(0xFFFF_FFFD));
    assert!(rt; div_s(32, 0x8000_0000, 0xFFFF_FFFF) == Err(Arith::Overflow));
    assert!(rt; rem_s(32, 0x8000_0000, 0xFFFF_FFFF) == Ok(0));
    assert!(rt; rem_u(64, 5, 0) == Err(Arith::ZeroDivide));
}

#[test]
fn shifts_and_comparisons(rt: HostRuntime) {
    assert_eq!(rt; shr_s(32, 0x8000_0000, 33), 0xC000_0000);
    assert_eq!(rt; rotl(64, 0x0123_4567_89AB_CDEF, 8), 0x2345_6789_ABCD_EF01);
    assert_eq!(rt; rotr(32, 0x1234_5678, 8), 0x7812_3456);
    assert_eq!(rt; lt_s(64, 0x8000_0000_0000_0000, 0), 1);
}

#[test]
fn counts_and_widths(rt: HostRuntime) {
    assert_eq!(rt; clz(64, 0xFFFF_FFFF), 32);
    assert_eq!(rt; popcnt(64, 0x0123_4567_89AB_CDEF), 32);
    assert_eq!(rt; extend(8, 64, true, 0x80), 0xFFFF_FFFF_FFFF_FF80);
    assert_eq!(rt; narrow(16, 0x1234_5678_9ABC_DEF0), 0xDEF0);
}
