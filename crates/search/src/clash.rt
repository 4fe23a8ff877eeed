// The rows of a clash.
ghost use Rattle.std.specs.Prelude.{◌≡◌, ◌↔◌, ◌≤◌, ◌<◌, ℕ, List, [], true, length, IsTrue};
ghost use Rattle.engine.specs.Limits.{max_seats, max_rows};
ghost use Rattle.engine.specs.Terms.{seats_of};
ghost use Rattle.engine.specs.States.{active_rows};
ghost use Rattle.search.specs.Unmuted.{all_unmuted};
ghost use Rattle.search.specs.Verdicts.{clash, found_state};
ghost use Rattle.search.specs.Engines.{Alike, Marked, PossibleIn, PossibleWithout, CoreIn};

use crate::find::find_first;
use crate::verdict::Places;
use engine::engine::Engine;

// Lifts every code off both engines.
fn lift_all<F: Engine, S: Engine>(first: &mut F, second: &mut S)
    requires { (cs : List ℕ) × Alike F.Engine S.Engine first.old second.old first.old second.old cs }
    ensures { Alike F.Engine S.Engine first.old second.old first.new second.new [] }
{
    while first.lift().is_ok() {
        let _ = second.lift();
    }
}

// Mutes row i in both engines, or makes it active.
fn mark_row<F: Engine, S: Engine>(first: &mut F, second: &mut S, i: u8, active: bool)
    requires alike { Alike F.Engine S.Engine first.old second.old first.old second.old [] }
    requires within { i < length (F.state first.old).rows }
    ensures { Marked F.Engine S.Engine first.old second.old first.new second.new i active }
{
    if active {
        let _ = first.unmute(i);
        let _ = second.unmute(i);
    } else {
        let _ = first.mute(i);
        let _ = second.mute(i);
    }
}

// Mutes row i, unless it is needed: then something is allowed without it. Answers whether it is needed.
fn mute_unless_needed<F: Engine, S: Engine>(first: &mut F, second: &mut S, i: u8) -> bool
    requires alike { Alike F.Engine S.Engine first.old second.old first.old second.old [] }
    requires few { length (seats_of (F.state first.old).terms) ≤ max_seats }
    requires within { i < length (F.state first.old).rows }
    ensures marked { Marked F.Engine S.Engine first.old second.old first.new second.new i result }
    ensures tells { IsTrue result ↔ PossibleWithout F.Engine S.Engine first.old second.old i }
{
    mark_row(first, second, i, false);
    let needed = find_first(first, second).is_some();
    lift_all(first, second);
    if needed {
        mark_row(first, second, i, true);
    }
    needed
}

// The rows of the clash, by the walk from row 0 up. Just they are active then.
pub(crate) fn find_clash<F: Engine, S: Engine>(first: &mut F, second: &mut S, rows: u8) -> Places
    requires alike { Alike F.Engine S.Engine first.old second.old first.old second.old [] }
    requires few { length (seats_of (F.state first.old).terms) ≤ max_seats }
    requires unmuted { all_unmuted (F.state first.old).rows ≡ true }
    requires count { rows ≡ length (F.state first.old).rows }
    requires small { rows ≤ max_rows }
    requires clash { PossibleIn F.Engine S.Engine first.old second.old → ⊥ }
    ensures core { CoreIn F.Engine S.Engine first.old second.old result.items }
    ensures leaves_first { F.state first.new ≡ found_state (F.state first.old).terms (active_rows (F.state first.old).rows) (clash result.items) }
    ensures leaves_second { S.state second.new ≡ found_state (F.state first.old).terms (active_rows (F.state first.old).rows) (clash result.items) }
    ensures keeps_first { F.setting first.new ≡ F.setting first.old }
    ensures keeps_second { S.setting second.new ≡ S.setting second.old }
{
    let mut places = Places::new();
    for i in 0..rows {
        if mute_unless_needed(first, second, i) {
            places.push(i);
        }
    }
    places
}
