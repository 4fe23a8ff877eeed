// What the engine says of whole sheets: whether it is open, and the dates.
use crate::script::{Call, make};
use engine::dating::Dating;
use engine::engine::Engine;
use sheet::row::Row;
use sheet::term::{Form, Kind, Term};
use span::span::Span;
use std::process::Abort;
use std::test::Fail;

// Dated terms beside zero, spans, codes, and the dates; none where the engine is not open or not every seat is
// placed.
struct Case {
    dated: u8,
    spans: &'static [(u8, u8, i32)],
    codes: &'static [u8],
    // by itself, since there are no dates either while a seat is left
    open: bool,
    // behind the seats' dates zeros fill the row, so that the table is one constant
    dates: Option<[i64; 8]>,
}

const CASES: [Case; 16] = [
    // zero alone
    Case {
        dated: 0,
        spans: &[],
        codes: &[],
        open: true,
        dates: None,
    },
    Case {
        dated: 0,
        spans: &[],
        codes: &[0],
        open: true,
        dates: Some([0, 0, 0, 0, 0, 0, 0, 0]),
    },
    // two instants and no row: the first arrangement puts each before those placed
    Case {
        dated: 2,
        spans: &[],
        codes: &[0, 0, 0],
        open: true,
        dates: Some([0, -1, -2, 0, 0, 0, 0, 0]),
    },
    Case {
        dated: 2,
        spans: &[],
        codes: &[0, 0],
        open: true,
        dates: None,
    },
    Case {
        dated: 2,
        spans: &[],
        codes: &[0, 1, 1],
        open: true,
        dates: Some([0, 0, 0, 0, 0, 0, 0, 0]),
    },
    Case {
        dated: 2,
        spans: &[],
        codes: &[0, 2, 4],
        open: true,
        dates: Some([0, 1, 2, 0, 0, 0, 0, 0]),
    },
    // zero after zero by one tick at least, and by none
    Case {
        dated: 0,
        spans: &[(0, 0, -1)],
        codes: &[],
        open: false,
        dates: None,
    },
    Case {
        dated: 0,
        spans: &[(0, 0, 0)],
        codes: &[0],
        open: true,
        dates: Some([0, 0, 0, 0, 0, 0, 0, 0]),
    },
    // x is 1,000,000, at the limit of a bound
    Case {
        dated: 1,
        spans: &[(1, 0, 1000000), (0, 1, -1000000)],
        codes: &[0, 2],
        open: true,
        dates: Some([0, 1000000, 0, 0, 0, 0, 0, 0]),
    },
    // which no other place among the blocks allows
    Case {
        dated: 1,
        spans: &[(1, 0, 1000000), (0, 1, -1000000)],
        codes: &[0, 1],
        open: false,
        dates: None,
    },
    Case {
        dated: 1,
        spans: &[(1, 0, 1000000), (0, 1, -1000000)],
        codes: &[0, 0],
        open: false,
        dates: None,
    },
    // x lies from 4 to 6 and not at 4 or 6: a, b and c are 4, 5 and 6
    Case {
        dated: 4,
        spans: &[
            (2, 0, 4),
            (0, 2, -4),
            (3, 0, 5),
            (0, 3, -5),
            (4, 0, 6),
            (0, 4, -6),
            (1, 0, 6),
            (0, 1, -4),
        ],
        codes: &[0, 2, 2, 5, 6],
        open: true,
        dates: Some([0, 5, 4, 5, 6, 0, 0, 0]),
    },
    // three instants in two ticks are not all unlike
    Case {
        dated: 3,
        spans: &[
            (1, 0, 2),
            (0, 1, -1),
            (2, 0, 2),
            (0, 2, -1),
            (3, 0, 2),
            (0, 3, -1),
        ],
        codes: &[0, 2, 4, 6],
        open: false,
        dates: None,
    },
    Case {
        dated: 3,
        spans: &[
            (1, 0, 2),
            (0, 1, -1),
            (2, 0, 2),
            (0, 2, -1),
            (3, 0, 2),
            (0, 3, -1),
        ],
        codes: &[0, 2, 4, 3],
        open: true,
        dates: Some([0, 1, 2, 1, 0, 0, 0, 0]),
    },
    // a chain of the least bounds, as far from zero as dates go
    Case {
        dated: 7,
        spans: &[
            (1, 0, -1000000),
            (2, 1, -1000000),
            (3, 2, -1000000),
            (4, 3, -1000000),
            (5, 4, -1000000),
            (6, 5, -1000000),
            (7, 6, -1000000),
        ],
        codes: &[0, 0, 0, 0, 0, 0, 0, 0],
        open: true,
        dates: Some([
            0, -1000000, -2000000, -3000000, -4000000, -5000000, -6000000, -7000000,
        ]),
    },
    // and the other way round, with the rows in the order that takes the most rounds
    Case {
        dated: 7,
        spans: &[
            (0, 1, -1000000),
            (1, 2, -1000000),
            (2, 3, -1000000),
            (3, 4, -1000000),
            (4, 5, -1000000),
            (5, 6, -1000000),
            (6, 7, -1000000),
        ],
        codes: &[0, 2, 4, 6, 8, 10, 12, 14],
        open: true,
        dates: Some([
            0, 1000000, 2000000, 3000000, 4000000, 5000000, 6000000, 7000000,
        ]),
    },
];

fn prepare(rt: &impl Abort, case: &Case, span: &mut Span) {
    for _ in 0..case.dated {
        let term = Term {
            kind: Kind::Dated,
            form: Form::Name,
        };
        assert_eq!(rt; make(Call::NoteTerm(term), span), Ok(()));
    }
    for (left, right, bound) in case.spans {
        let row = Row::Span {
            left: *left,
            right: *right,
            bound: *bound,
        };
        assert_eq!(rt; make(Call::NoteRow(row), span), Ok(()));
    }
    for code in case.codes {
        assert_eq!(rt; make(Call::Place(*code), span), Ok(()));
    }
}

#[test]
fn sheets_are_open_and_dated(rt: HostRuntime) -> Result<(), Fail> {
    for case in &CASES {
        let mut span = Span::new(rt.alloc())?;
        prepare(&rt, case, &mut span);
        assert_eq!(rt; span.open(), case.open);
        match (span.dates(), case.dates) {
            (Ok(got), Some(want)) => {
                assert_eq!(rt; got.len(), case.dated as usize + 1);
                assert_eq!(rt; Some(got.as_slice()), want.get(..got.len()));
            }
            (Err(fault), None) => assert_eq!(rt; (fault.cause.number(), fault.layer), (24, 'S')),
            _ => assert!(rt; false),
        }
    }
    Ok(())
}

// A muted row does not count, an unmuted one does again; rows of the other kinds never do.
#[test]
fn only_active_spans_count(rt: HostRuntime) -> Result<(), Fail> {
    let mut span = Span::new(rt.alloc())?;
    assert_eq!(rt;
        make(Call::NoteRow(Row::Unlike { left: 0, right: 0 }), &mut span),
        Ok(())
    );
    assert!(rt; span.open());
    assert_eq!(rt;
        make(
            Call::NoteRow(Row::Span {
                left: 0,
                right: 0,
                bound: -1,
            }),
            &mut span,
        ),
        Ok(())
    );
    assert!(rt; !span.open());
    assert_eq!(rt; make(Call::Mute(1), &mut span), Ok(()));
    assert!(rt; span.open());
    assert_eq!(rt; make(Call::Unmute(1), &mut span), Ok(()));
    assert!(rt; !span.open());
    assert_eq!(rt; make(Call::Strike, &mut span), Ok(()));
    assert!(rt; span.open());
    Ok(())
}
