// The lines of a set-up and of a clash.
ghost use Rattle.std.specs.Prelude.{◌≡◌, IfOk, string_bytes};
ghost use Rattle.listing.specs.Lines.{clash_text, entry_line, setup_text};

use congruence::entry::{Arguments, Entry};
use std::alloc::{AllocError, Global};

// The numbers of the terms, and then the entries.
pub(crate) fn write_setup(
    heap: Global,
    numbers: &[i64],
    entries: &[Entry],
) -> Result<String, AllocError>
    ensures { IfOk result (λ text. string_bytes text ≡ setup_text numbers.now entries.now) }
{
    let mut text = String::from_str(heap, "setup\n")?;
    for (term, number) in numbers.iter().enumerate() {
        let line = format!(in heap; "term {term} {number}\n")?;
        text.push_str(line.as_str())?;
    }
    for entry in entries {
        let line = write_entry(heap, *entry)?;
        text.push_str(line.as_str())?;
    }
    Ok(text)
}

fn write_entry(heap: Global, entry: Entry) -> Result<String, AllocError>
    ensures { IfOk result (λ text. string_bytes text ≡ entry_line entry) }
{
    let Entry { table, answer, .. } = entry;
    match entry.arguments {
        Arguments::Unary(number) => format!(in heap; "entry {table} {number} {answer}\n"),
        Arguments::Binary(number, other) => {
            format!(in heap; "entry {table} {number} {other} {answer}\n")
        }
    }
}

// The rows of a clash.
pub(crate) fn write_clash(heap: Global, rows: &[u8]) -> Result<String, AllocError>
    ensures { IfOk result (λ text. string_bytes text ≡ clash_text rows.now) }
{
    let mut text = String::from_str(heap, "clash\n")?;
    for row in rows {
        let line = format!(in heap; "row {row}\n")?;
        text.push_str(line.as_str())?;
    }
    Ok(text)
}
