//! Reading a slice from left to right.

ghost use Rattle.std.specs.Prelude.{◌≡◌, ◌==◌, ◌≤◌, ◌<◌, ◌+◌, ◌-◌, ◌∷◌, [], length, drop, take, MatchOption, IfSome, is_some, if◌then◌else◌};
ghost use Rattle.ms_bytes.specs.Spot.{Spot, TakesByte, first_is, over, part, place, start};

use std::marker::Model;

/// A slice that is read from left to right, and the place of its next byte, which is at most the slice's length.
///
/// Contracts see what is left and the place at which the slice ends; places count from 0.
#[derive(Drop)]
pub struct Cursor<'a> {
    left: &'a [u8],
    at: usize,
}

impl<'a> Model for Cursor<'a> {
    ghost use Rattle.std.specs.Prelude.{◌+◌, ◌<◌, ◌^◌, length};
    ghost use Rattle.ms_bytes.specs.Spot.{Spot};

    ghost Value = { Spot };

    ghost view = { λ c. record { end = c.at + length c.left.now; left = c.left.now } };

    ghost invariant = { λ c. c.at + length c.left.now < 2 ^ 64 };
}

impl<'a> Cursor<'a> {
    /// The beginning of a slice.
    pub fn new(bytes: &'a [u8]) -> Self
        ensures { result ≡ start bytes.now }
    {
        Cursor { left: bytes, at: 0 }
    }

    /// The place of the next byte, or the slice's length at its end.
    pub fn at(&self) -> usize
        ensures place { result ≡ place self.now }
        ensures within { result + length self.now.left ≡ self.now.end }
    {
        self.at
    }

    /// The place behind the last byte.
    pub fn end(&self) -> usize
        ensures { result ≡ self.now.end }
    {
        self.at + self.left.len()
    }

    /// The bytes that are left.
    pub fn rest(&self) -> &'a [u8]
        ensures { result.now ≡ self.now.left }
    {
        self.left
    }

    /// How many bytes are left.
    pub fn len(&self) -> usize
        ensures { result ≡ length self.now.left }
    {
        self.left.len()
    }

    /// Whether no byte is left.
    pub fn is_empty(&self) -> bool
        ensures { result ≡ (length self.now.left == 0) }
    {
        self.left.is_empty()
    }

    /// Whether the next byte is this one.
    pub fn next_is(&self, byte: u8) -> bool
        ensures { result ≡ first_is byte self.now.left }
    {
        match self.left {
            [] => false,
            [first, ..] => *first == byte,
        }
    }

    /// Takes the next byte. `None` exactly where none is left; then the cursor stays.
    pub fn take(&mut self) -> Option<u8>
        ensures { MatchOption result ((self.old.left ≡ []) × (self.new ≡ self.old)) (TakesByte self.old self.new) }
    {
        match self.left {
            [] => None,
            [first, rest @ ..] => {
                self.left = rest;
                self.at += 1;
                Some(*first)
            }
        }
    }

    /// Takes the next `n` bytes, a part of the slice. `None` exactly where fewer are left; then the cursor stays.
    pub fn take_n(&mut self, n: usize) -> Option<&'a [u8]>
        ensures few { MatchOption result (length self.old.left < n) (λ _. n ≤ length self.old.left) }
        ensures part { IfSome result (λ bytes. bytes.now ≡ take n self.old.left) }
        ensures after { self.new ≡ (if is_some result then over n self.old else self.old) }
    {
        if self.left.len() < n {
            return None;
        }
        let (front, rest) = self.left.split_at(n);
        self.left = rest;
        self.at += n;
        Some(front)
    }

    /// Goes over the next `n` bytes.
    pub fn skip(&mut self, n: usize)
        requires { n ≤ length self.old.left }
        ensures { self.new ≡ over n self.old }
    {
        self.left = &self.left[n..];
        self.at += n;
    }

    /// Takes the next `n` bytes as a cursor of their own, whose places are those of the whole slice.
    pub fn split(&mut self, n: usize) -> Cursor<'a>
        requires { n ≤ length self.old.left }
        ensures part { result ≡ part n self.old }
        ensures rest { self.new ≡ over n self.old }
    {
        let (front, rest) = self.left.split_at(n);
        let at = self.at;
        self.left = rest;
        self.at += n;
        Cursor { left: front, at }
    }
}
