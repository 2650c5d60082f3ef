//! A cursor over a slice with ample bytes, and at its end.

use ms_bytes::Cursor;
use std::process::Abort;

#[test]
fn goes_from_left_to_right(rt: HostRuntime) {
    let bytes = [10, 20, 30, 40, 50];
    let mut c = Cursor::new(&bytes);
    assert_eq!(rt; c.take(), Some(10));
    assert!(rt; c.next_is(20) && !c.next_is(30));
    assert_eq!(rt; c.take_n(5).is_none(), true, "four are left");
    assert_eq!(rt; c.at(), 1);
    assert_eq!(rt; c.take_n(2), Some([20, 30].as_slice()));
    assert_eq!(rt; c.at(), 3);
    assert_eq!(rt; c.len(), 2);
}

/// The cursor has one more byte.
fn expect_last<R: Abort>(rt: &R, c: &mut Cursor<'_>, at: usize, byte: u8) {
    assert_eq!(rt; c.at(), at);
    assert_eq!(rt; c.take(), Some(byte));
    assert_eq!(rt; c.take(), None);
    assert_eq!(rt; c.at(), at + 1);
}

fn expect_end<R: Abort>(rt: &R, c: &mut Cursor<'_>, at: usize) {
    assert!(rt; c.is_empty());
    assert_eq!(rt; c.take(), None);
    assert_eq!(rt; c.at(), at);
    assert_eq!(rt; c.rest().len(), 0);
}

#[test]
fn places_are_those_of_the_whole(rt: HostRuntime) {
    let bytes = [10, 20, 30, 40, 50];
    let mut c = Cursor::new(&bytes);
    c.skip(3);
    let mut inside = c.split(1);
    expect_last(&rt, &mut inside, 3, 40);
    assert_eq!(rt; c.at(), 4);
    c.skip(1);
    expect_end(&rt, &mut c, 5);
}
