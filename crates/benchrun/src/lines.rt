// The lines of a verdict.
ghost use Rattle.std.specs.Prelude.{◌≡◌, IfOk, string_bytes};
ghost use Rattle.benchrun.specs.Lines.{clash_lines, setup_lines};

use std::alloc::{AllocError, Global};

// A set-up by the codes of its seats, from seat 0 on.
#[tactic(auto, using(crate::proofs::Lining::setup_lines_more))]
pub(crate) fn write_setup(heap: Global, codes: &[u8]) -> Result<String, AllocError>
    ensures { IfOk result (λ text. string_bytes text ≡ setup_lines codes.now) }
{
    let mut text = String::from_str(heap, "setup")?;
    for (seat, code) in codes.iter().enumerate() {
        let line = format!(in heap; "\ncode {seat} {code}")?;
        text.push_str(line.as_str())?;
    }
    Ok(text)
}

// A clash by the places of its rows.
pub(crate) fn write_clash(heap: Global, rows: &[u8]) -> Result<String, AllocError>
    ensures { IfOk result (λ text. string_bytes text ≡ clash_lines rows.now) }
{
    let mut text = String::from_str(heap, "clash")?;
    for row in rows {
        let line = format!(in heap; "\nrow {row}")?;
        text.push_str(line.as_str())?;
    }
    Ok(text)
}
