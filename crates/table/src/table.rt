// The table engine: whether the same and unlike rows and the blocks can be met, and which terms are equal.
ghost use Rattle.std.specs.Prelude.{◌≡◌, ◌↔◌, IsTrue, IfOk};
ghost use Rattle.engine.specs.Equalities.{EqualityClasses};
ghost use Rattle.engine.specs.Placing.{placed_seats};
ghost use Rattle.engine.specs.Rules.{TableAllowed};
ghost use Rattle.engine.specs.States.{Completion, active_rows, new_state};
ghost use Rattle.table.specs.Decisions.{classes_of};
ghost use Rattle.table.specs.Equalities.{KeptApart};
ghost use Rattle.table.specs.TableState.{state_in};

use crate::classes::Classes;
use crate::closing::close;
use crate::equalities::{merge_blocks, merge_rows};
use crate::separation::{blocks_apart, rows_apart};
use arrayvec::ArrayVec;
use engine::holdings::Holdings;
use engine::limits::MAX_TERMS;
use engine::placed::Placed;
use std::alloc::{AllocError, Global};

// It counts the same and unlike rows: equality over tables. Span rows are noted and do not count.
#[derive(Drop)]
pub struct Table {
    pub(crate) held: Holdings,
}

impl Table {
    // A new engine, with all the room that it will ever need.
    pub fn new(heap: Global) -> Result<Table, AllocError>
        ensures { IfOk result (λ e. state_in e ≡ new_state) }
    {
        let held = Holdings::new(heap)?;
        Ok(Table { held })
    }

    // Whether some allowed arrangement begins with the codes placed. That is so exactly when some numbers and tables fit the active same
    // and unlike rows and the blocks placed; and exactly when the two terms of each active unlike row, and each two placed seats of
    // different blocks, differ in some choice that makes the same rows true and gives the seats of each block one number.
    pub fn is_consistent(&self) -> bool
        ensures exact { IsTrue result ↔ Completion TableAllowed (state_in self.now) }
        ensures fits { let s = state_in self.now in
            IsTrue result ↔ TableAllowed s.terms (active_rows s.rows) s.codes }
        ensures apart { IsTrue result ↔ KeptApart (state_in self.now) }
    {
        let placed = self.held.placed_seats();
        let classes = self.closed_classes(placed.as_slice());
        rows_apart(self.held.rows(), &classes) && blocks_apart(placed.as_slice(), &classes)
    }

    // For each term, by its index, the least of the terms that are equal to it in every choice of numbers and tables that makes each
    // active same row true and gives the seats of each block one number.
    pub fn classes(&self) -> ArrayVec<u8, MAX_TERMS>
        ensures { EqualityClasses (state_in self.now) result.items }
    {
        let placed = self.held.placed_seats();
        let mut classes = ArrayVec::from_array_in((), self.closed_classes(placed.as_slice()).least);
        classes.truncate(self.held.terms().len());
        classes
    }

    // The classes of the active same rows and of the blocks of the placed seats, closed under congruence.
    fn closed_classes(&self, placed: &[Placed]) -> Classes
        requires { placed.now ≡ placed_seats (state_in self.now) }
        ensures { result.least ≡ classes_of (state_in self.now) }
    {
        let mut classes = Classes::singletons();
        merge_rows(self.held.rows(), &mut classes);
        merge_blocks(placed, &mut classes);
        close(self.held.terms(), &mut classes);
        classes
    }
}
