// What the table engine says of whole sheets: whether it is open, and the classes of the terms.
use crate::script::{Call, make};
use engine::engine::Engine;
use sheet::row::Row;
use sheet::term::{Form, Kind, Term};
use std::process::Abort;
use std::test::Fail;
use table::table::Table;

// A term, written so that the table stays short.
#[derive(Clone, Copy)]
enum Given {
    Level,
    LevelOne(char, u8),
    LevelTwo(char, u8, u8),
    Dated,
    DatedOne(char, u8),
}

impl Given {
    fn term(self) -> Term {
        let (kind, form) = match self {
            Given::Level => (Kind::Level, Form::Name),
            Given::LevelOne(table, argument) => (Kind::Level, Form::One { table, argument }),
            Given::LevelTwo(table, first, second) => (
                Kind::Level,
                Form::Two {
                    table,
                    first,
                    second,
                },
            ),
            Given::Dated => (Kind::Dated, Form::Name),
            Given::DatedOne(table, argument) => (Kind::Dated, Form::One { table, argument }),
        };
        Term { kind, form }
    }
}

// A row, likewise.
#[derive(Clone, Copy)]
enum Asked {
    Same(u8, u8),
    Unlike(u8, u8),
    Span(u8, u8, i32),
}

impl Asked {
    fn row(self) -> Row {
        match self {
            Asked::Same(left, right) => Row::Same { left, right },
            Asked::Unlike(left, right) => Row::Unlike { left, right },
            Asked::Span(left, right, bound) => Row::Span { left, right, bound },
        }
    }
}

// Terms beside zero, rows, the row that is muted, and codes; whether the engine is open then, and the least term of each term's
// class, zero's first.
struct Case {
    terms: &'static [Given],
    rows: &'static [Asked],
    muted: Option<u8>,
    codes: &'static [u8],
    open: bool,
    classes: &'static [u8],
}

// p, and A applied to it once, twice, and so on up to five times
const POWERS: &[Given] = &[
    Given::Level,
    Given::LevelOne('A', 1),
    Given::LevelOne('A', 2),
    Given::LevelOne('A', 3),
    Given::LevelOne('A', 4),
    Given::LevelOne('A', 5),
];

// A applied three times to p is p, so is A applied five times, and A applied once is not: any two can hold
const CYCLES: &[Asked] = &[Asked::Same(4, 1), Asked::Same(6, 1), Asked::Unlike(2, 1)];

// x, y and z, and B at (x, z), (y, z) and (z, x)
const PAIRS: &[Given] = &[
    Given::Level,
    Given::Level,
    Given::Level,
    Given::LevelTwo('B', 1, 3),
    Given::LevelTwo('B', 2, 3),
    Given::LevelTwo('B', 3, 1),
];

// the instants x and y, and the instants A(x) and A(y)
const INSTANTS: &[Given] = &[
    Given::Dated,
    Given::Dated,
    Given::DatedOne('A', 1),
    Given::DatedOne('A', 2),
];

const CASES: [Case; 31] = [
    // zero alone, before and after it is placed
    Case {
        terms: &[],
        rows: &[],
        muted: None,
        codes: &[],
        open: true,
        classes: &[0],
    },
    Case {
        terms: &[],
        rows: &[Asked::Same(0, 0)],
        muted: None,
        codes: &[0],
        open: true,
        classes: &[0],
    },
    // a term is never unlike itself
    Case {
        terms: &[Given::Level],
        rows: &[Asked::Unlike(1, 1)],
        muted: None,
        codes: &[],
        open: false,
        classes: &[0, 1],
    },
    // a muted row does not count
    Case {
        terms: &[Given::Level],
        rows: &[Asked::Unlike(1, 1)],
        muted: Some(0),
        codes: &[],
        open: true,
        classes: &[0, 1],
    },
    Case {
        terms: &[Given::Level],
        rows: &[Asked::Same(1, 0), Asked::Unlike(1, 0)],
        muted: None,
        codes: &[],
        open: false,
        classes: &[0, 0],
    },
    Case {
        terms: &[Given::Level],
        rows: &[Asked::Same(1, 0), Asked::Unlike(1, 0)],
        muted: Some(0),
        codes: &[],
        open: true,
        classes: &[0, 1],
    },
    // span rows do not count
    Case {
        terms: &[],
        rows: &[Asked::Span(0, 0, -1)],
        muted: None,
        codes: &[],
        open: true,
        classes: &[0],
    },
    // equal along a chain of rows
    Case {
        terms: &[Given::Level, Given::Level, Given::Level, Given::Level],
        rows: &[
            Asked::Same(1, 4),
            Asked::Same(2, 3),
            Asked::Same(3, 4),
            Asked::Unlike(2, 1),
        ],
        muted: None,
        codes: &[],
        open: false,
        classes: &[0, 1, 1, 1, 1],
    },
    // A three times and five times
    Case {
        terms: POWERS,
        rows: CYCLES,
        muted: None,
        codes: &[],
        open: false,
        classes: &[0, 1, 1, 1, 1, 1, 1],
    },
    Case {
        terms: POWERS,
        rows: CYCLES,
        muted: Some(0),
        codes: &[],
        open: true,
        classes: &[0, 1, 2, 3, 4, 5, 1],
    },
    Case {
        terms: POWERS,
        rows: CYCLES,
        muted: Some(1),
        codes: &[],
        open: true,
        classes: &[0, 1, 2, 3, 1, 2, 3],
    },
    Case {
        terms: POWERS,
        rows: CYCLES,
        muted: Some(2),
        codes: &[],
        open: true,
        classes: &[0, 1, 1, 1, 1, 1, 1],
    },
    // what is known of the last application says nothing of the first
    Case {
        terms: POWERS,
        rows: &[Asked::Same(6, 5), Asked::Unlike(2, 1)],
        muted: None,
        codes: &[],
        open: true,
        classes: &[0, 1, 2, 3, 4, 5, 5],
    },
    // two arguments: equal where both are, in either order of the rows
    Case {
        terms: PAIRS,
        rows: &[Asked::Same(1, 2), Asked::Unlike(4, 5)],
        muted: None,
        codes: &[],
        open: false,
        classes: &[0, 1, 1, 3, 4, 4, 6],
    },
    Case {
        terms: PAIRS,
        rows: &[Asked::Unlike(5, 4), Asked::Same(2, 1)],
        muted: None,
        codes: &[],
        open: false,
        classes: &[0, 1, 1, 3, 4, 4, 6],
    },
    Case {
        terms: PAIRS,
        rows: &[Asked::Unlike(4, 5)],
        muted: None,
        codes: &[],
        open: true,
        classes: &[0, 1, 2, 3, 4, 5, 6],
    },
    // and not where only the first is, or the two are exchanged
    Case {
        terms: &[
            Given::Level,
            Given::Level,
            Given::LevelTwo('B', 1, 1),
            Given::LevelTwo('B', 1, 2),
        ],
        rows: &[Asked::Unlike(3, 4)],
        muted: None,
        codes: &[],
        open: true,
        classes: &[0, 1, 2, 3, 4],
    },
    Case {
        terms: PAIRS,
        rows: &[Asked::Same(2, 3), Asked::Unlike(4, 6)],
        muted: None,
        codes: &[],
        open: true,
        classes: &[0, 1, 2, 2, 4, 5, 6],
    },
    Case {
        terms: PAIRS,
        rows: &[Asked::Same(1, 3), Asked::Unlike(4, 6)],
        muted: None,
        codes: &[],
        open: false,
        classes: &[0, 1, 2, 1, 4, 5, 4],
    },
    // an argument that becomes equal by the other table
    Case {
        terms: &[
            Given::Level,
            Given::Level,
            Given::LevelOne('A', 1),
            Given::LevelOne('A', 2),
            Given::LevelTwo('B', 3, 0),
            Given::LevelTwo('B', 4, 0),
        ],
        rows: &[Asked::Unlike(5, 6), Asked::Same(1, 2)],
        muted: None,
        codes: &[],
        open: false,
        classes: &[0, 1, 1, 3, 3, 5, 5],
    },
    // an equality that reaches earlier terms only in a later round
    Case {
        terms: &[
            Given::Level,
            Given::Level,
            Given::LevelOne('A', 1),
            Given::LevelOne('A', 2),
            Given::Level,
            Given::LevelOne('C', 5),
            Given::LevelOne('C', 3),
        ],
        rows: &[
            Asked::Same(5, 3),
            Asked::Same(6, 1),
            Asked::Same(7, 2),
            Asked::Unlike(3, 4),
        ],
        muted: None,
        codes: &[],
        open: false,
        classes: &[0, 1, 1, 3, 3, 3, 1, 1],
    },
    // other letters, and other counts of arguments
    Case {
        terms: &[
            Given::Level,
            Given::LevelOne('A', 1),
            Given::LevelOne('B', 1),
        ],
        rows: &[Asked::Unlike(2, 3)],
        muted: None,
        codes: &[],
        open: true,
        classes: &[0, 1, 2, 3],
    },
    Case {
        terms: &[
            Given::Level,
            Given::LevelOne('A', 0),
            Given::LevelTwo('B', 0, 0),
        ],
        rows: &[Asked::Same(1, 0), Asked::Unlike(2, 3)],
        muted: None,
        codes: &[],
        open: true,
        classes: &[0, 0, 2, 3],
    },
    // applications that are dated: x and y in one block put theirs into one block
    Case {
        terms: INSTANTS,
        rows: &[],
        muted: None,
        codes: &[0, 2, 3, 4],
        open: true,
        classes: &[0, 1, 1, 3, 3],
    },
    Case {
        terms: INSTANTS,
        rows: &[],
        muted: None,
        codes: &[0, 2, 3, 4, 5],
        open: true,
        classes: &[0, 1, 1, 3, 3],
    },
    Case {
        terms: INSTANTS,
        rows: &[],
        muted: None,
        codes: &[0, 2, 3, 4, 6],
        open: false,
        classes: &[0, 1, 1, 3, 3],
    },
    // and those of two blocks need two blocks for their arguments
    Case {
        terms: INSTANTS,
        rows: &[Asked::Unlike(3, 4)],
        muted: None,
        codes: &[0, 2, 4],
        open: true,
        classes: &[0, 1, 2, 3, 4],
    },
    Case {
        terms: INSTANTS,
        rows: &[Asked::Unlike(3, 4)],
        muted: None,
        codes: &[0, 1, 1],
        open: false,
        classes: &[0, 0, 0, 3, 3],
    },
    // equal instants in two blocks, in one, and with one of them not placed
    Case {
        terms: &[Given::Dated, Given::Dated],
        rows: &[Asked::Same(1, 2)],
        muted: None,
        codes: &[0, 2, 4],
        open: false,
        classes: &[0, 1, 1],
    },
    Case {
        terms: &[Given::Dated, Given::Dated],
        rows: &[Asked::Same(1, 2)],
        muted: None,
        codes: &[0, 2, 3],
        open: true,
        classes: &[0, 1, 1],
    },
    Case {
        terms: &[Given::Dated, Given::Dated],
        rows: &[Asked::Same(1, 2), Asked::Unlike(1, 0)],
        muted: None,
        codes: &[0, 1],
        open: false,
        classes: &[0, 0, 0],
    },
];

fn prepare(rt: &impl Abort, case: &Case, table: &mut Table) {
    for term in case.terms {
        assert_eq!(rt; make(Call::NoteTerm(term.term()), table), Ok(()));
    }
    for row in case.rows {
        assert_eq!(rt; make(Call::NoteRow(row.row()), table), Ok(()));
    }
    if let Some(row) = case.muted {
        assert_eq!(rt; make(Call::Mute(row), table), Ok(()));
    }
    for code in case.codes {
        assert_eq!(rt; make(Call::Place(*code), table), Ok(()));
    }
}

#[test]
fn sheets_are_open_and_classed(rt: HostRuntime) -> Result<(), Fail> {
    let mut table = Table::new(rt.alloc())?;
    for (k, case) in CASES.iter().enumerate() {
        table.renew();
        prepare(&rt, case, &mut table);
        assert_eq!(rt; table.open(), case.open, "case {k}");
        assert_eq!(rt; table.classes().as_slice(), case.classes, "case {k}");
    }
    Ok(())
}

// A muted row does not count, an unmuted one does again; a struck one is gone.
#[test]
fn only_active_equalities_count(rt: HostRuntime) -> Result<(), Fail> {
    let mut table = Table::new(rt.alloc())?;
    assert_eq!(rt;
        make(Call::NoteRow(Asked::Unlike(0, 0).row()), &mut table),
        Ok(())
    );
    assert!(rt; !table.open());
    assert_eq!(rt; make(Call::Mute(0), &mut table), Ok(()));
    assert!(rt; table.open());
    assert_eq!(rt; make(Call::Unmute(0), &mut table), Ok(()));
    assert!(rt; !table.open());
    assert_eq!(rt; make(Call::Strike, &mut table), Ok(()));
    assert!(rt; table.open());
    Ok(())
}
