//! A tag for each byte: the plain form of tagged bytes.

ghost use Rattle.std.specs.Prelude.{◌≡◌, ◌≤◌, ◌-◌, ◌++◌, length, drop, replicate, take, vec_len, vec_capacity};
ghost use Rattle.ms_tagged.specs.declared.tag.Tag.TheVariants as tag;

use crate::tag::{
    PIECES, Tag, first_held, first_shown, handle_in_front, number, write_number, write_pieces,
    write_zeros,
};
use crate::tagged::Tagged;
use ms_handle::Handle;
use std::alloc::{AllocError, Global};
use std::marker::Model;

/// Bytes that are data or pieces of handles, with a tag for each byte.
///
/// Memory is reserved for the tags of all bytes. Those behind the last one that was written so far are not there yet; they
/// stand for data bytes 0.
#[derive(Drop)]
pub struct ByteTags {
    tags: Vec<Tag>,
    capacity: u32,
    ghost few: { vec_len tags ≤ capacity },
    ghost reserved: { capacity ≤ vec_capacity tags },
}

impl Model for ByteTags {
    ghost use Rattle.std.specs.Prelude.{List};
    ghost use Rattle.ms_tagged.specs.Bytes.{Byte};
    ghost use Rattle.ms_tagged.specs.refinement.Tags.{bytes_of, filled};

    ghost Value = { List Byte };

    ghost view = { λ a. filled a.capacity (bytes_of a.tags.items) };
}

/// Adds the tags up to a place that aren't there yet.
fn reach(tags: &mut Vec<Tag>, end: usize)
    requires { end ≤ vec_capacity tags.old }
    ensures items { tags.new.items ≡ tags.old.items ++ replicate (end - length tags.old.items) (tag.Data 0) }
    ensures capacity { vec_capacity tags.new ≡ vec_capacity tags.old }
{
    let missing = end.saturating_sub(tags.len());
    for _ in 0..missing {
        tags.push_reserved(Tag::Data(0));
    }
}

/// The tags of so many bytes from a place on, those that are there.
fn part(tags: &[Tag], from: usize, count: usize) -> &[Tag]
    ensures { result.now ≡ take count (drop from tags.now) }
{
    let end = from.saturating_add(count).min(tags.len());
    &tags[from.min(end)..end]
}

impl Tagged for ByteTags {
    ghost bytes = { λ bytes. bytes };

    fn new(alloc: Global, capacity: u32) -> Result<Self, AllocError> {
        Ok(ByteTags {
            tags: Vec::with_capacity(alloc, capacity as usize)?,
            capacity,
        })
    }

    fn get(&self, address: u32, width: u32) -> Option<u64> {
        number(part(self.tags.as_slice(), address as usize, width as usize))
    }

    fn put(&mut self, address: u32, width: u32, value: u64) {
        let from = address as usize;
        let end = from + width as usize;
        reach(&mut self.tags, end);
        write_number(&mut self.tags[from..end], value);
    }

    fn get_handle(&self, address: u32) -> Handle {
        handle_in_front(part(self.tags.as_slice(), address as usize, PIECES))
    }

    fn put_handle(&mut self, address: u32, handle: Handle) {
        let from = address as usize;
        let end = from + PIECES;
        reach(&mut self.tags, end);
        write_pieces(&mut self.tags[from..end], handle);
    }

    fn clear(&mut self, address: u32, size: u32) {
        let from = address as usize;
        let end = from + size as usize;
        reach(&mut self.tags, end);
        write_zeros(&mut self.tags[from..end]);
    }

    fn shown(&self, address: u32) -> Option<u8> {
        first_shown(part(self.tags.as_slice(), address as usize, 1))
    }

    fn held(&self, address: u32) -> Option<Handle> {
        first_held(part(self.tags.as_slice(), address as usize, 1))
    }
}
