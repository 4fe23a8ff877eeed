// The lines of a session.
ghost use Rattle.std.specs.Prelude.{◌≡◌, ◌≤◌, ◌<◌, [], length, IfOk, MatchOption, vec_items};
ghost use Rattle.std.specs.List.{prefix_len};
ghost use Rattle.benchrun.specs.Sessions.{after_line, commands_in, first_line, is_in_line};

use crate::command::{Command, read_command};
use std::alloc::{AllocError, Global};

// What the lines say, one after another.
pub(crate) fn read_lines(heap: Global, lines: &[u8]) -> Result<Vec<Option<Command>>, AllocError>
    ensures { IfOk result (λ said. vec_items said ≡ commands_in lines.now) }
{
    let mut said = Vec::new(heap);
    let mut rest = lines;
    while let Some((line, after)) = take_line(rest) {
        said.push(read_command(line))?;
        rest = after;
    }
    Ok(said)
}

// The first line, and the bytes behind its line feed. Where no byte is left there is no line.
fn take_line(bytes: &[u8]) -> Option<(&[u8], &[u8])>
    ensures { MatchOption result (bytes.now ≡ [])
        (λ taken. (taken.0.now ≡ first_line bytes.now) × (taken.1.now ≡ after_line bytes.now) × (length taken.1.now < length bytes.now)) }
{
    if bytes.is_empty() {
        return None;
    }
    let (line, rest) = bytes.split_at(line_length(bytes));
    match rest {
        [_, after @ ..] => Some((line, after)),
        [] => Some((line, rest)),
    }
}

// How many bytes stand before the first line feed.
fn line_length(bytes: &[u8]) -> usize
    ensures within { result ≤ length bytes.now }
    ensures value { result ≡ prefix_len is_in_line bytes.now }
{
    bytes.iter().take_while(|byte| **byte != b'\n').count()
}
