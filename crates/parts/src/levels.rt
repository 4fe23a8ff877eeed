// Whether an engine allows any arrangement of a sheet.
ghost use Rattle.std.specs.Prelude.{◌≡◌};
ghost use Rattle.parts.specs.Diagnoses.{LevelsDiagnosed};

use crate::note_sheet::note_sheet;
use engine::engine::Engine;
use sheet::refusal::Refusal;

// Notes the sheet in the engine, places no seat, and asks whether it is open.
pub(crate) fn ask_levels<E: Engine>(engine: &mut E, sheet: &[u8]) -> Result<bool, Refusal>
    ensures tells { LevelsDiagnosed (E.rule (E.setting engine.old)) E.LETTER sheet.now (E.state engine.new) result }
    ensures keeps { E.setting engine.new ≡ E.setting engine.old }
{
    note_sheet(engine, sheet)?;
    Ok(engine.open())
}
