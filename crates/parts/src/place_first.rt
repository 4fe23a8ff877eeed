// The first arrangement that an engine allows. Its open is exact, so the least code that keeps it open is right at each seat.
ghost use Rattle.std.specs.Prelude.{◌≡◌, ◌≤◌, length};
ghost use Rattle.engine.specs.Limits.{max_seats};
ghost use Rattle.engine.specs.Terms.{seats_of};
ghost use Rattle.parts.specs.First.{FirstPlaced, LeastPlaced};

use arrayvec::ArrayVec;
use engine::engine::Engine;
use engine::limits::MAX_SEATS;

// Places the next seat by the least code that keeps the engine open, if one does. Where every seat is placed, none does.
pub(crate) fn place_least<E: Engine>(engine: &mut E) -> Option<u8>
    requires { length (seats_of (E.state engine.old).terms) ≤ max_seats }
    ensures places { LeastPlaced (E.rule (E.setting engine.old)) (E.state engine.old) (E.state engine.new) result }
    ensures keeps { E.setting engine.new ≡ E.setting engine.old }
{
    for code in 0..=u8::MAX {
        engine.place(code).ok()?;
        if engine.open() {
            return Some(code);
        }
        let _ = engine.lift();
    }
    None
}

// Places the seats that are left by the first arrangement that is allowed, if there is one, and answers its codes.
pub(crate) fn place_first<E: Engine>(engine: &mut E) -> Option<ArrayVec<u8, MAX_SEATS>>
    requires { length (seats_of (E.state engine.old).terms) ≤ max_seats }
    ensures places { FirstPlaced (E.rule (E.setting engine.old)) (E.state engine.old) (E.state engine.new) result }
    ensures keeps { E.setting engine.new ≡ E.setting engine.old }
{
    if !engine.open() {
        return None;
    }
    let mut codes = ArrayVec::new();
    while let Some(code) = place_least(engine) {
        codes.push(code);
    }
    Some(codes)
}
