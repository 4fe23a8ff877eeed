// The table engine's calls.
ghost use Rattle.std.specs.Prelude.{ℕ, List, refl};
ghost use Rattle.table.specs.TableState.{state_in};
ghost use Rattle.engine.specs.Rules.{TableAllowed};
ghost use Rattle.engine.proofs.Laws.{table_rule_without};

use crate::table::Table;
use engine::engine::Engine;
use sheet::fault::Fault;
use sheet::layer::InLayer;
use sheet::row::Row;
use sheet::term::Term;

// It is made with nothing that its rule depends on, so its setting is always 0.
impl Engine for Table {
    const LETTER: char = 'T';

    // T
    ghost LETTER = { 84 };

    ghost state = { state_in };

    ghost setting = { λ _. 0 };

    ghost rule = { λ _ ts rows codes. TableAllowed ts rows codes };

    ghost own_letter = { refl };

    ghost fewer = { λ n ts front back r codes a. table_rule_without ts front back r codes a };

    fn renew(&mut self) {
        self.held.renew();
    }

    fn note_term(&mut self, term: Term) -> Result<(), Fault> {
        self.held.note_term(term).in_layer(Self::LETTER)
    }

    fn note_row(&mut self, row: Row) -> Result<(), Fault> {
        self.held.note_row(row).in_layer(Self::LETTER)
    }

    fn strike(&mut self) -> Result<(), Fault> {
        self.held.strike().in_layer(Self::LETTER)
    }

    fn mute(&mut self, i: u8) -> Result<(), Fault> {
        self.held.mark(i, false).in_layer(Self::LETTER)
    }

    fn unmute(&mut self, i: u8) -> Result<(), Fault> {
        self.held.mark(i, true).in_layer(Self::LETTER)
    }

    fn place(&mut self, code: u8) -> Result<(), Fault> {
        self.held.place(code).in_layer(Self::LETTER)
    }

    fn lift(&mut self) -> Result<(), Fault> {
        self.held.lift().in_layer(Self::LETTER)
    }

    fn open(&self) -> bool {
        self.is_consistent()
    }
}
