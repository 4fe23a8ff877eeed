// What two engines say of a sheet: one that dates says of its instants, the other of its levels.
ghost use Rattle.std.specs.Prelude.{◌≡◌};
ghost use Rattle.parts.specs.Diagnoses.{Diagnosed};

use crate::instants::place_instants;
use crate::levels::ask_levels;
use crate::seat::Seat;
use arrayvec::ArrayVec;
use engine::dating::Dating;
use engine::engine::Engine;
use engine::limits::MAX_SEATS;
use sheet::refusal::Refusal;

// What the engines say of a sheet.
#[derive(Debug, Drop, PartialEq, Eq)]
pub struct Findings {
    // the seats in the first arrangement that is allowed, or nothing where none is
    pub instants: Option<ArrayVec<Seat, MAX_SEATS>>,
    // whether the second engine allows any arrangement
    pub levels: bool,
}

// What the engines say of a sheet, or why it is refused.
pub type Diagnosis = Result<Findings, Refusal>;

// Asks the first engine for the seats, and then the second one whether it is open; of a sheet that the first refuses it is not asked. The
// clause names what the engines mean part by part, as the interfaces have it: one ghost member for all would be one more thing that each
// engine has to write.
pub(crate) fn diagnose<D: Dating, E: Engine>(
    instants: &mut D,
    levels: &mut E,
    sheet: &[u8],
) -> Diagnosis
    ensures tells { let made_with = D.setting instants.old in
        Diagnosed (D.rule made_with) D.counts (D.picks made_with) D.LETTER (E.rule (E.setting levels.old)) E.LETTER
        sheet.now (D.state instants.new) (E.state levels.old) (E.state levels.new) result }
    ensures keeps_instants { D.setting instants.new ≡ D.setting instants.old }
    ensures keeps_levels { E.setting levels.new ≡ E.setting levels.old }
{
    let seats = place_instants(instants, sheet)?;
    // It is not refused here: what one engine takes every engine takes.
    let open = ask_levels(levels, sheet)?;
    Ok(Findings {
        instants: seats,
        levels: open,
    })
}
