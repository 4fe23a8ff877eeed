// A draft of a bench.
ghost use Rattle.std.specs.Prelude.{◌≡◌, [], ◌∷◌, ◌++◌, IfOk};
ghost use Rattle.engine.specs.Terms.{zero_term};
ghost use Rattle.engine.specs.Calls.{unless_refused};
ghost use Rattle.engine.specs.Refusals.{answer_in, term_refusal};
ghost use Rattle.search.specs.Standing.{rows_of};
ghost use Rattle.bench.specs.Letters.{draft_letter};

use crate::bench::Bench;
use engine::engine::Engine;
use search::standing::Standing;
use sheet::fault::Fault;
use sheet::layer::InLayer;
use sheet::term::Term;
use std::alloc::{AllocError, Global};

// The letter of the layer that declares terms.
const DRAFT: char = 'D';

// The terms of a bench to come. Once it is sealed there is no draft: a term more takes another draft.
#[derive(Drop)]
pub struct Draft {
    pub(crate) standing: Standing,
    ghost no_rows: { rows_of standing ≡ [] },
}

impl Draft {
    ghost use Rattle.bench.specs.Benches.{BothHold, declared, rows_at, terms_at};

    // Zero alone.
    pub fn new(heap: Global) -> Result<Draft, AllocError>
        ensures { IfOk result (λ draft. declared draft ≡ zero_term ∷ []) }
    {
        let standing = Standing::new(heap)?;
        Ok(Draft { standing })
    }

    // The terms declared, zero first.
    pub fn terms(&self) -> &[Term]
        ensures { result.now ≡ declared self.now }
    {
        self.standing.terms()
    }

    // Drops the terms declared, so that zero alone is left. The room stays.
    pub fn clear(&mut self)
        ensures { declared self.new ≡ zero_term ∷ [] }
    {
        self.standing.clear();
    }

    // Adds a term at the end.
    pub fn declare(&mut self, term: Term) -> Result<(), Fault>
        ensures answers { result ≡ answer_in draft_letter (term_refusal (declared self.old) term) }
        ensures leaves { declared self.new ≡ unless_refused (term_refusal (declared self.old) term) (declared self.old) (declared self.old ++ term ∷ []) }
    {
        self.standing.declare(term).in_layer(DRAFT)
    }

    // Makes both engines new and notes the terms in them. No row stands.
    pub fn seal<F: Engine, S: Engine>(self, first: F, second: S) -> Bench<F, S>
        ensures terms { terms_at result ≡ declared self }
        ensures rows { rows_at result ≡ [] }
        ensures engines { BothHold F.Engine S.Engine result }
        ensures keeps_first { F.setting result.first ≡ F.setting first }
        ensures keeps_second { S.setting result.second ≡ S.setting second }
    {
        let Draft { standing } = self;
        Bench::with_engines(standing, first, second)
    }
}
