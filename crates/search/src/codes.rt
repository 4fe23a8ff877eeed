// Codes placed and lifted in both engines alike.
ghost use Rattle.std.specs.Prelude.{◌≡◌, ◌≤◌, [], ◌++◌, length, IfNone, option_to_list};
ghost use Rattle.engine.specs.Limits.{max_seats};
ghost use Rattle.engine.specs.Terms.{seats_of};
ghost use Rattle.search.specs.Engines.{Alike};
ghost use Rattle.search.specs.Searching.{PlacedIf};

use crate::verdict::Codes;
use engine::engine::Engine;

// Places the code in both engines, if it may be placed. The second engine holds what the first does, so it takes what the first takes.
pub(crate) fn place_code<F: Engine, S: Engine>(
    first: &mut F,
    second: &mut S,
    codes: &mut Codes,
    code: u8,
) -> bool
    requires alike { Alike F.Engine S.Engine first.old second.old first.old second.old codes.old.items }
    requires few { length (seats_of (F.state first.old).terms) ≤ max_seats }
    ensures alike { Alike F.Engine S.Engine first.old second.old first.new second.new codes.new.items }
    ensures placed { PlacedIf (length (seats_of (F.state first.old).terms)) codes.old.items code result codes.new.items }
{
    if first.place(code).is_err() {
        return false;
    }
    let _ = second.place(code);
    codes.push(code);
    true
}

// Lifts the last code off both engines, if there is one.
pub(crate) fn lift_code<F: Engine, S: Engine>(
    first: &mut F,
    second: &mut S,
    codes: &mut Codes,
) -> Option<u8>
    requires { Alike F.Engine S.Engine first.old second.old first.old second.old codes.old.items }
    ensures alike { Alike F.Engine S.Engine first.old second.old first.new second.new codes.new.items }
    ensures lifted { codes.old.items ≡ codes.new.items ++ option_to_list result }
    ensures none { IfNone result (codes.new.items ≡ []) }
{
    let code = codes.pop()?;
    let _ = first.lift();
    let _ = second.lift();
    Some(code)
}
