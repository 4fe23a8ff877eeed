// The search for the first arrangement that two engines allow.
ghost use Rattle.std.specs.Prelude.{◌≤◌, [], length};
ghost use Rattle.engine.specs.Limits.{max_seats};
ghost use Rattle.engine.specs.Terms.{seats_of};
ghost use Rattle.search.specs.declared.phase.Phase.TheVariants.{Descend};
ghost use Rattle.search.specs.Engines.{Alike, AllowedIn, codes_found};
ghost use Rattle.search.specs.Searching.{Known, NothingUnder, GoesOn, Finds};

use crate::codes::{lift_code, place_code};
use crate::phase::Phase;
use crate::verdict::Codes;
use engine::engine::Engine;

// One step. Where both engines are open it goes down, by the least code for the next seat; with every seat placed it rests, and otherwise it
// turns back. An engine that is not open allows nothing that begins with these codes.
pub(crate) fn step<F: Engine, S: Engine>(
    first: &mut F,
    second: &mut S,
    codes: &mut Codes,
    phase: Phase,
) -> Phase
    requires alike { Alike F.Engine S.Engine first.old second.old first.old second.old codes.old.items }
    requires few { length (seats_of (F.state first.old).terms) ≤ max_seats }
    requires known { Known (AllowedIn F.Engine S.Engine first.old second.old) (length (seats_of (F.state first.old).terms)) phase codes.old.items }
    ensures alike { Alike F.Engine S.Engine first.old second.old first.new second.new codes.new.items }
    ensures known { Known (AllowedIn F.Engine S.Engine first.old second.old) (length (seats_of (F.state first.old).terms)) result codes.new.items }
    ensures goes_on { GoesOn (length (seats_of (F.state first.old).terms)) phase codes.old.items result codes.new.items }
{
    match (phase, first.open(), second.open()) {
        (Phase::Descend, true, true) => {
            if place_code(first, second, codes, 0) {
                Phase::Descend
            } else {
                Phase::Found
            }
        }
        (Phase::Descend, _, _) => turn_back(first, second, codes),
        (Phase::Found | Phase::Exhausted, _, _) => phase,
    }
}

// Lifts codes until a seat can take a higher one, and places it there.
fn turn_back<F: Engine, S: Engine>(first: &mut F, second: &mut S, codes: &mut Codes) -> Phase
    requires alike { Alike F.Engine S.Engine first.old second.old first.old second.old codes.old.items }
    requires few { length (seats_of (F.state first.old).terms) ≤ max_seats }
    requires known { NothingUnder (AllowedIn F.Engine S.Engine first.old second.old) (length (seats_of (F.state first.old).terms)) codes.old.items }
    ensures alike { Alike F.Engine S.Engine first.old second.old first.new second.new codes.new.items }
    ensures known { Known (AllowedIn F.Engine S.Engine first.old second.old) (length (seats_of (F.state first.old).terms)) result codes.new.items }
    ensures goes_on { GoesOn (length (seats_of (F.state first.old).terms)) Descend codes.old.items result codes.new.items }
{
    while let Some(code) = lift_code(first, second, codes) {
        if place_code(first, second, codes, code + 1) {
            return Phase::Descend;
        }
    }
    Phase::Exhausted
}

// Sets both engines at the first arrangement that both allow, if there is one, and answers its codes.
pub(crate) fn find_first<F: Engine, S: Engine>(first: &mut F, second: &mut S) -> Option<Codes>
    requires alike { Alike F.Engine S.Engine first.old second.old first.old second.old [] }
    requires few { length (seats_of (F.state first.old).terms) ≤ max_seats }
    ensures alike { Alike F.Engine S.Engine first.old second.old first.new second.new (codes_found result) }
    ensures finds { Finds (AllowedIn F.Engine S.Engine first.old second.old) result }
{
    let mut codes = Codes::new();
    let mut phase = Phase::Descend;
    loop {
        phase = step(first, second, &mut codes, phase);
        match phase {
            Phase::Found => return Some(codes),
            Phase::Exhausted => return None,
            Phase::Descend => {}
        }
    }
}
