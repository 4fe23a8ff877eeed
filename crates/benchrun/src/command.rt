// The commands of a session, one in a line.
ghost use Rattle.std.specs.Prelude.{◌≡◌, ◌≤◌, ◌≢◌, not, [], ◌∷◌, length, MatchOption, slice_index};
ghost use Rattle.std.specs.Iterator.{YieldsFirstRef, item_count};
ghost use Rattle.std.specs.List.{prefix_len};
ghost use Rattle.std.specs.Str.{IsAscii};
ghost use Rattle.benchrun.specs.Commands.{ReadsSpelled, bound_in, command_in, command_of, index_in, is_blank, pair_row, plain_command, row_in, span_row, words_of};

use sheet::row::Row;
use std::str;

// What a session can be told: to enter a row behind the others, to take the last one out, to judge the rows, or to begin again.
#[derive(Clone, Copy, Debug, PartialEq, Eq)]
pub(crate) enum Command {
    Enter(Row),
    Strike,
    Judge,
    Reopen,
}

// What is left of a line, whose words come one after another.
#[derive(Clone, Copy)]
struct Words<'a>(&'a [u8]);

impl<'a> Iterator for Words<'a> {
    type Item = &'a [u8];

    ghost next_gives = { YieldsFirstRef (λ w. words_of w.0.now) };

    ghost remaining = { item_count (λ w. words_of w.0.now) };

    fn next(&mut self) -> Option<&'a [u8]> {
        let (word, rest) = take_word(self.0)?;
        self.0 = rest;
        Some(word)
    }
}

// The first word of a line, and the bytes after it.
fn take_word(line: &[u8]) -> Option<(&[u8], &[u8])>
    ensures { MatchOption result (words_of line.now ≡ [])
        (λ taken. words_of line.now ≡ taken.0.now ∷ words_of taken.1.now) }
{
    let (_, line) = line.split_at(blanks_before(line));
    if line.is_empty() {
        return None;
    }
    Some(line.split_at(word_length(line)))
}

// How many blanks the line begins with.
fn blanks_before(line: &[u8]) -> usize
    ensures within { result ≤ length line.now }
    ensures value { result ≡ prefix_len is_blank line.now }
{
    line.iter().take_while(|byte| **byte == b' ').count()
}

// How many bytes the word takes that the line begins with.
fn word_length(line: &[u8]) -> usize
    ensures within { result ≤ length line.now }
    ensures value { result ≡ prefix_len (λ b. not (is_blank b)) line.now }
{
    line.iter().take_while(|byte| **byte != b' ').count()
}

// The command that a line says, if it says one. The line may end in a carriage return.
pub(crate) fn read_command(line: &[u8]) -> Option<Command>
    ensures answer { result ≡ command_in line.now }
    ensures spelled { ReadsSpelled line.now result }
{
    let line = line.strip_suffix(b"\r").unwrap_or(line);
    read_words(Words(line))
}

// The command that the words say.
fn read_words(mut words: Words<'_>) -> Option<Command>
    ensures { result ≡ command_of (words_of words.entry.0.now) }
{
    let word = words.next()?;
    if word == b"enter".as_slice() {
        return read_row(words).map(Command::Enter);
    }
    if words.next().is_some() {
        return None;
    }
    plain_command(word)
}

// A command of one word.
fn plain_command(word: &[u8]) -> Option<Command>
    ensures { result ≡ plain_command word.now }
{
    match word {
        b"strike" => Some(Command::Strike),
        b"judge" => Some(Command::Judge),
        b"reopen" => Some(Command::Reopen),
        _ => None,
    }
}

// The row that the words behind `enter` say.
fn read_row(mut words: Words<'_>) -> Option<Row>
    ensures { result ≡ row_in (words_of words.entry.0.now) }
{
    let kind = words.next()?;
    let left = words.next()?;
    let right = words.next()?;
    match words.next() {
        None => pair_row(kind, read_index(left)?, read_index(right)?),
        Some(bound) => {
            if words.next().is_some() {
                return None;
            }
            span_row(
                kind,
                read_index(left)?,
                read_index(right)?,
                read_bound(bound)?,
            )
        }
    }
}

fn pair_row(kind: &[u8], left: u8, right: u8) -> Option<Row>
    ensures { result ≡ pair_row kind.now (Some left) (Some right) }
{
    match kind {
        b"same" => Some(Row::Same { left, right }),
        b"unlike" => Some(Row::Unlike { left, right }),
        _ => None,
    }
}

fn span_row(kind: &[u8], left: u8, right: u8, bound: i32) -> Option<Row>
    ensures { result ≡ span_row kind.now (Some left) (Some right) (Some bound) }
{
    match kind {
        b"span" => Some(Row::Span { left, right, bound }),
        _ => None,
    }
}

// The index of a term in decimal digits.
fn read_index(word: &[u8]) -> Option<u8>
    ensures { result ≡ index_in word.now }
{
    number_text(word)?.parse().ok()
}

// A bound in decimal digits, behind a minus where it is negative.
fn read_bound(word: &[u8]) -> Option<i32>
    ensures { result ≡ bound_in word.now }
{
    number_text(word)?.parse().ok()
}

// The word as a text to parse. `parse` would take a plus before a number, and no command has one.
fn number_text(word: &[u8]) -> Option<&str>
    ensures { MatchOption result (IsAscii word.now → slice_index word.now 0 ≡ 43)
        (λ text. (text.now ≡ word.now) × (slice_index word.now 0 ≢ 43)) }
{
    if word.starts_with(b"+") {
        return None;
    }
    str::from_utf8(word).ok()
}
