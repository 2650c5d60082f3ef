//! The reader of schedules.

ghost use Rattle.std.specs.Prelude.{◌≡◌};
ghost use Rattle.ms_job.specs.Schedules.{first_word, is_apart, schedule_in};
ghost use Rattle.ms_job.specs.refinement.Reading.{ReadsSchedule};

use crate::fault::SchedFault;
use crate::words::number;
use ms_types::Vector;
use std::alloc::Global;

/// The numbers of a schedule, or the place of the first word that is no number from 0 to 4,294,967,295.
///
/// Words are separated by any number of spaces, LF and CR LF, which may stand at the beginning and the end, too.
pub fn schedule(alloc: Global, text: &[u8]) -> Result<Vector<u32>, SchedFault>
    ensures { ReadsSchedule (schedule_in text.now) result }
{
    let mut numbers = Vector::new(alloc);
    let mut at = 0;
    while at < text.len() {
        let left = &text[at..];
        if is_apart(left) {
            at += 1;
            continue;
        }
        let word = first_word(left);
        let Some(number) = number(word, 0, 4_294_967_295) else {
            return Err(SchedFault::At { at });
        };
        numbers.push(number as u32)?;
        at += word.len();
    }
    Ok(numbers)
}

/// Whether a space, an LF, or a CR before an LF stands in front.
fn is_apart(text: &[u8]) -> bool
    ensures { result ≡ is_apart text.now }
{
    matches!(text, [b' ' | b'\n', ..] | [b'\r', b'\n', ..])
}

/// The word in front.
fn first_word(text: &[u8]) -> &[u8]
    ensures { result.now ≡ first_word text.now }
{
    for i in 0..text.len() {
        if is_apart(&text[i..]) {
            return &text[..i];
        }
    }
    text
}
