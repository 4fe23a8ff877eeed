// What the program prints of a sheet.
ghost use Rattle.std.specs.Prelude.{◌≡◌, ◌++◌, IfOk, codes, string_bytes};
ghost use Rattle.parts.specs.Diagnoses.{Diagnosed};
ghost use Rattle.parts.specs.Lines.{OnlyReport, findings_lines, instants_lines, report_of, seat_lines};
ghost use Rattle.parts.specs.Told.{PartsDiagnosed, Told};

use crate::diagnosis::{Diagnosis, Findings, diagnose};
use crate::seat::Seat;
use arrayvec::ArrayVec;
use engine::dating::Dating;
use engine::engine::Engine;
use engine::limits::MAX_SEATS;
use span::span::Span;
use std::alloc::{AllocError, Global};
use table::table::Table;

// A diagnosis, and its lines.
#[derive(Drop)]
pub struct Report {
    pub diagnosis: Diagnosis,
    pub text: String,
}

// Diagnoses the sheet, and puts the diagnosis into lines. Where memory fails nothing is said of what the engines hold then.
pub(crate) fn report_sheet<D: Dating, E: Engine>(
    heap: Global,
    instants: &mut D,
    levels: &mut E,
    sheet: &[u8],
) -> Result<Report, AllocError>
    ensures keeps_instants { D.setting instants.new ≡ D.setting instants.old }
    ensures keeps_levels { E.setting levels.new ≡ E.setting levels.old }
    ensures tells { let made_with = D.setting instants.old in
        IfOk result (λ report.
        Diagnosed (D.rule made_with) D.counts (D.picks made_with) D.LETTER (E.rule (E.setting levels.old)) E.LETTER
        sheet.now (D.state instants.new) (E.state levels.old) (E.state levels.new) report.diagnosis) }
    ensures lists { IfOk result (λ report. string_bytes report.text ≡ report_of report.diagnosis) }
    ensures only { let made_with = D.setting instants.old in
        IfOk result (λ report.
        OnlyReport (D.rule made_with) D.counts (D.picks made_with) D.LETTER (E.rule (E.setting levels.old)) E.LETTER
        sheet.now (string_bytes report.text)) }
{
    let diagnosis = diagnose(instants, levels, sheet);
    let text = write_lines(heap, &diagnosis)?;
    Ok(Report { diagnosis, text })
}

// What the span engine says of the instants of a sheet, and the table engine of its levels.
pub(crate) fn report_parts(heap: Global, sheet: &[u8]) -> Result<Report, AllocError>
    ensures tells { IfOk result (λ report. Told sheet.now report.diagnosis) }
    ensures engines { IfOk result (λ report. PartsDiagnosed sheet.now report.diagnosis) }
    ensures lists { IfOk result (λ report. string_bytes report.text ≡ report_of report.diagnosis) }
{
    let mut instants = Span::new(heap)?;
    let mut levels = Table::new(heap)?;
    report_sheet(heap, &mut instants, &mut levels, sheet)
}

// The lines of a diagnosis.
fn write_lines(heap: Global, diagnosis: &Diagnosis) -> Result<String, AllocError>
    ensures { IfOk result (λ text. string_bytes text ≡ report_of diagnosis.now) }
{
    match diagnosis {
        Ok(findings) => write_findings(heap, findings),
        Err(refusal) => format!(in heap; "{refusal}"),
    }
}

// The lines of the instants, and behind them the line of the levels.
fn write_findings(heap: Global, findings: &Findings) -> Result<String, AllocError>
    ensures { IfOk result (λ text. string_bytes text ≡ findings_lines findings.now) }
{
    let instants = write_instants(heap, &findings.instants)?;
    let levels = if findings.levels { "met" } else { "unmet" };
    format!(in heap; "{instants}\nlevels {levels}")
}

fn write_instants(
    heap: Global,
    instants: &Option<ArrayVec<Seat, MAX_SEATS>>,
) -> Result<String, AllocError>
    ensures { IfOk result (λ text. string_bytes text ≡ instants_lines instants.now) }
{
    match instants {
        Some(seats) => write_seats(heap, seats.as_slice()),
        None => String::from_str(heap, "instants unmet"),
    }
}

// A line for each seat, each behind the end of the line before.
fn write_seats(heap: Global, seats: &[Seat]) -> Result<String, AllocError>
    ensures { IfOk result (λ text. string_bytes text ≡ codes "instants met" ++ seat_lines seats.now) }
{
    let mut text = String::from_str(heap, "instants met")?;
    for seat in seats {
        let line = format!(in heap; "\n{seat}")?;
        text.push_str(line.as_str())?;
    }
    Ok(text)
}
