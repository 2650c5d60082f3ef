//! From words to a request.

ghost use Rattle.std.specs.Prelude.{◌≡◌, IfOk, map};
ghost use Rattle.ms_command_line.specs.Asked.{IsRequest, IsInRange, IsWhole};

use super::definition::command_line;
use super::matched::request_of;
use super::request::{Request, WordsFault};
use clap::error::ErrorKind;
use std::alloc::Global;

/// Reads the words of a command line, of which the first is the program's name.
///
/// A budget is at most 1,000,000,000,000, and 1,000,000 where none is given; a memory has 16 to 1,073,741,824 bytes, and
/// 1,048,576 where none is given. `Refused` comes exactly where the definition of the commands refuses the words: an
/// unknown command or option, a word too many or too few, a number that is none or is out of its range, an option given
/// twice, a request for help. Options stand anywhere after the command; words that begin with `-` may follow `--`.
pub fn parse_words<'a>(alloc: Global, words: &'a [&'a str]) -> Result<Request<'a>, WordsFault>
    ensures answers { IsRequest (map (λ w. w.now) words.entry.now) result }
    ensures whole { IfOk result (λ _. IsWhole (map (λ w. w.now) words.entry.now)) }
    ensures ranges { IfOk result IsInRange }
{
    let Ok(command) = command_line(alloc) else {
        return Err(WordsFault::Memory);
    };
    match command.try_get_matches_from(words) {
        Ok(matches) => Ok(request_of(&matches)),
        Err(error) => match error.kind() {
            ErrorKind::OutOfMemory => Err(WordsFault::Memory),
            _ => Err(WordsFault::Refused),
        },
    }
}
