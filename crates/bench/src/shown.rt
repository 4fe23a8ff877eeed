// A result that is shown.
ghost use Rattle.std.specs.Prelude.{◌≡◌};
ghost use Rattle.search.specs.Verdicts.{Judged, found_state, value_of};
ghost use Rattle.search.specs.Standing.{terms_of, rows_of};
ghost use Rattle.engine.specs.Terms.{seats_of};
ghost use Rattle.bench.specs.Letters.{result_letter};
ghost use Rattle.bench.specs.Results.{item_of, code_of, clash_row_of};
ghost use Rattle.sheet.specs.Causes.{in_layer};

use crate::bench::Bench;
use engine::engine::Engine;
use search::standing::Standing;
use search::verdict::Verdict;
use sheet::fault::{Cause, Fault};
use sheet::layer::InLayer;
use sheet::term::Term;

// The letter of the layer that a result is read off from.
pub const RESULT: char = 'P';

// A bench while its result is shown. It takes no row before it is reopened: what is shown was found for the rows that stand. Both engines hold
// what stands: at an arrangement its codes are placed, and at a clash just its rows are active.
#[derive(Drop)]
pub struct Shown<F: Engine, S: Engine> {
    pub(crate) standing: Standing,
    pub(crate) verdict: Verdict,
    pub(crate) first: F,
    pub(crate) second: S,
    ghost judged: { ∥ Judged (F.rule (F.setting first)) (S.rule (S.setting second)) (terms_of standing) (rows_of standing) (value_of verdict) ∥₁ },
    ghost held_by_first: { F.state first ≡ found_state (terms_of standing) (rows_of standing) (value_of verdict) },
    ghost held_by_second: { S.state second ≡ found_state (terms_of standing) (rows_of standing) (value_of verdict) },
}

impl<F: Engine, S: Engine> Shown<F, S> {
    ghost use Rattle.bench.specs.Benches.{terms_at, rows_at, terms_shown, rows_shown, BothHold, found};

    // The terms, zero first.
    pub fn terms(&self) -> &[Term]
        ensures { result.now ≡ terms_shown self.now }
    {
        self.standing.terms()
    }

    // The indices of the dated terms.
    pub fn seats(&self) -> &[u8]
        ensures { result.now ≡ seats_of (terms_shown self.now) }
    {
        self.standing.seats()
    }

    // The first engine, to be asked more about what was found.
    pub fn first(&self) -> &F
        ensures engine { result.now ≡ self.now.first }
        ensures holds { F.state result.now ≡ found_state (terms_shown self.now) (rows_shown self.now) (found self.now) }
    {
        &self.first
    }

    // The second engine.
    pub fn second(&self) -> &S
        ensures engine { result.now ≡ self.now.second }
        ensures holds { S.state result.now ≡ found_state (terms_shown self.now) (rows_shown self.now) (found self.now) }
    {
        &self.second
    }

    // What was found.
    pub fn verdict(&self) -> &Verdict
        ensures { value_of result.now ≡ found self.now }
    {
        &self.verdict
    }

    // The code of a seat, by its place among the seats.
    pub fn code(&self, seat: u8) -> Result<u8, Fault>
        ensures { result ≡ in_layer result_letter (code_of (found self.now) seat) }
    {
        match &self.verdict {
            Verdict::Arrangement { codes } => read_at(codes.as_slice(), seat),
            Verdict::Clash { .. } => Err(Cause::OtherVerdict),
        }
        .in_layer(RESULT)
    }

    // The row of the clash that stands at this place among them.
    pub fn clash_row(&self, place: u8) -> Result<u8, Fault>
        ensures { result ≡ in_layer result_letter (clash_row_of (found self.now) place) }
    {
        match &self.verdict {
            Verdict::Clash { rows } => read_at(rows.as_slice(), place),
            Verdict::Arrangement { .. } => Err(Cause::OtherVerdict),
        }
        .in_layer(RESULT)
    }

    // Gives the bench back with the same rows. Its engines are made new, so that no row is muted in them and no code placed.
    pub fn reopen(self) -> Bench<F, S>
        ensures terms { terms_at result ≡ terms_shown self }
        ensures rows { rows_at result ≡ rows_shown self }
        ensures engines { BothHold F.Engine S.Engine result }
        ensures keeps_first { F.setting result.first ≡ F.setting self.first }
        ensures keeps_second { S.setting result.second ≡ S.setting self.second }
    {
        let Shown {
            standing,
            verdict: _,
            first,
            second,
        } = self;
        Bench::with_engines(standing, first, second)
    }
}

// The item at a place of the list, if there is one.
fn read_at(list: &[u8], place: u8) -> Result<u8, Cause>
    ensures { result ≡ item_of list.now place }
{
    list.get(place as usize).copied().ok_or(Cause::NotInResult)
}
