// Gives an engine what stands.
ghost use Rattle.std.specs.Prelude.{◌≡◌};
ghost use Rattle.search.specs.Unmuted.{standing_state};
ghost use Rattle.search.specs.Standing.{terms_of, rows_of};

use crate::standing::Standing;
use engine::engine::Engine;

// Makes the engine new, and notes in it the terms and the rows that stand, none muted. It needs to know nothing of what the engine held.
// Zero is there without being noted.
pub fn note_standing<E: Engine>(engine: &mut E, standing: &Standing)
    ensures leaves { E.state engine.new ≡ standing_state (terms_of standing.now) (rows_of standing.now) }
    ensures keeps { E.setting engine.new ≡ E.setting engine.old }
{
    engine.renew();
    for term in &standing.terms()[1..] {
        let _ = engine.note_term(*term);
    }
    for noted in standing.rows() {
        let _ = engine.note_row(noted.row);
    }
}
