//! The bytes of the segment memory. Each is a data byte or a piece of a handle.
//!
//! `Tagged` is their contract, over the plain list of `specs/Bytes.antt`, which is what to read first. `ByteTags` keeps it
//! with a tag for each byte, `Granules` with a mask and a handle for sixteen of them. It stands on `ms_handle` alone.
#![tactic(auto)]

mod byte_tags;
mod granules;
pub mod lanes;
mod marks;
mod pieces;
mod tag;
mod tagged;
mod word;

pub use byte_tags::ByteTags;
pub use granules::Granules;
pub use tagged::Tagged;

#[cfg(test)]
mod tests;
