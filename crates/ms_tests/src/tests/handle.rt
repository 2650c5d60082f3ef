//! Vectors from outside. What each operation gives is proved for all handles.

use ms_handle::{Apart, Handle, add, diff, eq, is_null, seal, slice};

/// A handle with the bound from 16 to 56.
const WHOLE: Handle = Handle::Good {
    sealed: false,
    id: 7,
    base: 16,
    length: 40,
    offset: 0,
};

/// The bound from 20 to 28 in it, and the place 25.
const PART: Handle = Handle::Good {
    sealed: false,
    id: 7,
    base: 20,
    length: 8,
    offset: 5,
};

#[test]
fn outside_vectors(rt: HostRuntime) {
    let moved = add(slice(WHOLE, 4, 8), 5, 1);
    assert!(rt; moved == PART);
    assert!(rt; eq(add(WHOLE, 3, 3), PART));
    let sealed = add(slice(seal(WHOLE), 4, 8), 5, 1);
    assert!(rt; sealed != PART);
    assert!(rt; eq(sealed, PART));
    assert!(rt; diff(PART, WHOLE) == Ok(9));
    assert!(rt; add(WHOLE, 1_099_511_627_777, 1) == Handle::Broken);
    assert!(rt; slice(WHOLE, 0, 41) == Handle::Broken);
    assert!(rt; diff(WHOLE, Handle::Null) == Err(Apart));
    assert!(rt; is_null(add(Handle::Null, 8, 0)));
}
