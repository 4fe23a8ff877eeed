// The answer to a sheet.
ghost use Rattle.std.specs.Prelude.{◌≡◌, IfOk, string_bytes};
ghost use Rattle.bench.specs.Benches.{rows_at, terms_at};
ghost use Rattle.setup.specs.Parts.{found_in, set_up_in};
ghost use Rattle.listing.specs.Listed.{LoadedListed, OnlyListing, SheetListed, text_of};

use crate::lines::{write_clash, write_setup};
use bench::draft::Draft;
use load::load::{Loaded, load};
use search::verdict::Verdict;
use setup::solved::Solved;
use setup::table_and_span::solve_with_table_and_span;
use sheet::refusal::Refusal;
use span::span::Span;
use std::alloc::{AllocError, Global};
use table::table::Table;

// What is printed of a sheet, and why it was refused, if it was.
#[derive(Drop)]
pub struct Listing {
    pub text: String,
    pub refusal: Option<Refusal>,
}

// Loads a sheet into a bench with the table engine and the span engine, and lists its set-up or its clash, or why it is refused.
pub fn list_sheet(heap: Global, sheet: &[u8]) -> Result<Listing, AllocError>
    ensures lists { IfOk result (λ l. SheetListed sheet.now l.refusal (string_bytes l.text)) }
    ensures only { IfOk result (λ l. OnlyListing sheet.now l.refusal (string_bytes l.text)) }
{
    let draft = Draft::new(heap)?;
    let loaded = load(draft, sheet, Table::new(heap)?, Span::new(heap)?);
    list_loaded(heap, loaded)
}

// The set-up or the clash of a sheet that was loaded, or why it was refused.
fn list_loaded(heap: Global, loaded: Loaded<Table, Span>) -> Result<Listing, AllocError>
    ensures { IfOk result (λ l. LoadedListed loaded.refusal (terms_at loaded.bench) (rows_at loaded.bench) l.refusal (string_bytes l.text)) }
{
    let Loaded { bench, refusal } = loaded;
    let text = match refusal {
        Some(refusal) => format!(in heap; "{refusal}\n")?,
        None => write_solved(heap, &solve_with_table_and_span(bench))?,
    };
    Ok(Listing { text, refusal })
}

// What was found, in lines.
fn write_solved(heap: Global, solved: &Solved<Span>) -> Result<String, AllocError>
    ensures { IfOk result (λ text. string_bytes text ≡ text_of (found_in solved.now) (set_up_in solved.now)) }
{
    match solved.shown().verdict() {
        Verdict::Arrangement { .. } => match solved.set_up() {
            Some(set_up) => write_setup(heap, set_up.numbers(), set_up.entries()),
            // It does not come to this: an arrangement that was found has its set-up.
            None => Ok(String::new(heap)),
        },
        Verdict::Clash { rows } => write_clash(heap, rows.as_slice()),
    }
}
