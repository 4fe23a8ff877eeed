#![tactic(auto)]
// Lists the fields of a sheet in words, writes each back, and says where a field is refused and why.
mod listing;
mod words;
mod write_back;

use crate::listing::list_fields;
use crate::write_back::write_fields_back;
use program::host::Program;

const HELP: &str = "usage: fieldlist < SHEET

Lists the sheet on standard input, at most its first 8192 bytes.
Each field gets a line: the byte where it starts, its term or row, and what it says.
Each field is also written again and compared with the sheet; the last line counts them.
A field that is not well made ends the listing with the line: refused NUMBER LAYER PLACE

samples/ has sheets to try, and tools/mksheet makes one from a readable text:
  tools/mksheet < samples/five-lines.txt > my.sheet
docs/FORMAT.md says what each byte means, docs/REFUSALS.md what each number means.";

fn main(rt: HostRuntime) -> anyhow::Result<()> {
    run(&rt)
}

fn run(rt: &HostRuntime) -> anyhow::Result<()> {
    let program = Program {
        rt,
        name: "fieldlist",
        help: HELP,
    };
    let Some(sheet) = program.sheet()? else {
        return Ok(());
    };
    let mut buffer = vec![in rt.alloc(); 0u8; sheet.len()]?;
    let ending = write_fields_back(sheet.as_slice(), buffer.as_mut_slice());
    let lines = list_fields(rt.alloc(), sheet.as_slice())?;
    match ending {
        Ok(tally) => println!(rt; "{lines}{tally}")?,
        Err(refusal) => {
            println!(rt; "{lines}{refusal}")?;
            program.explain(refusal)?;
        }
    }
    Ok(())
}
