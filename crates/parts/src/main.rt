#![tactic(auto)]
// Says whether the instants of a sheet alone can be met, with the first arrangement and its dates if they can, and whether its levels
// alone can be met.
#[cfg(test)]
mod cases;
mod diagnosis;
mod instants;
mod levels;
mod note_sheet;
mod place_first;
mod report;
mod seat;

use crate::report::report_parts;
use program::host::Program;

const HELP: &str = "usage: parts < SHEET

Says of two parts of the sheet on standard input whether each can be met by itself:
  instants    the dated terms and the spans; levels, tables, same and unlike rows do not count
  levels      all terms, their tables, and the same and unlike rows; spans do not count
Both may be met although the two together are not.
At most the first 8192 bytes are read. The first line is one of these:
  instants met                  and a line for each dated term follows, zero first:
                                seat PLACE term INDEX code CODE date DATE
  instants unmet                no dates make every span true
  refused NUMBER LAYER PLACE    the field that starts at byte PLACE is refused; no line follows
Unless it is refused, the last line is one of these:
  levels met
  levels unmet                  no numbers and tables make every same and unlike row true

samples/ has sheets to try, and tools/mksheet makes one from a readable text:
  tools/mksheet < samples/five-lines.txt > my.sheet
docs/MEANING.md says what terms, rows and codes are, docs/REFUSALS.md what each number means.";

fn main(rt: HostRuntime) -> anyhow::Result<()> {
    run(&rt)
}

fn run(rt: &HostRuntime) -> anyhow::Result<()> {
    let program = Program {
        rt,
        name: "parts",
        help: HELP,
    };
    let Some(sheet) = program.sheet()? else {
        return Ok(());
    };
    let report = report_parts(rt.alloc(), sheet.as_slice())?;
    let text = report.text.as_str();
    println!(rt; "{text}")?;
    if let Err(refusal) = report.diagnosis {
        program.explain(refusal)?;
    }
    Ok(())
}
