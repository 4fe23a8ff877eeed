#![tactic(auto)]
// Lists the set-up of a sheet, or the rows of its clash, or why it is refused.
use listing::listing::list_sheet;
use program::host::Program;

const HELP: &str = "usage: sheetlist < SHEET

Reads the sheet on standard input, at most its first 8192 bytes, and prints one of these:
  setup                 some numbers and tables make every row true, and a line follows for each
                        term, and then for each table entry that the terms use:
  term TERM NUMBER
  entry LETTER ARGUMENT .. ANSWER
  clash                 none do, and a line follows for each of some rows that cannot hold
                        together, no one of which can be left out:
  row ROW
  refused NUMBER LAYER PLACE
                        the field that starts at this byte is refused
Terms and rows are numbered from 0, and term 0 is zero, which no field declares.

samples/ has sheets to try, and tools/mksheet makes one from a readable text:
  tools/mksheet < samples/five-lines.txt > my.sheet
docs/FORMAT.md says what each byte means, docs/MEANING.md what a set-up is, and
docs/REFUSALS.md what each number means.";

fn main(rt: HostRuntime) -> anyhow::Result<()> {
    run(&rt)
}

fn run(rt: &HostRuntime) -> anyhow::Result<()> {
    let program = Program {
        rt,
        name: "sheetlist",
        help: HELP,
    };
    let Some(sheet) = program.sheet()? else {
        return Ok(());
    };
    let listing = list_sheet(rt.alloc(), sheet.as_slice())?;
    let text = listing.text.as_str();
    print!(rt; "{text}")?;
    if let Some(refusal) = listing.refusal {
        program.explain(refusal)?;
    }
    Ok(())
}
