// Each call with what it answers, a refusal by its number, since that is what people see. A new engine of each kind goes through each table.
use crate::script::{Call, make};
use engine::engine::Engine;
use sheet::row::Row;
use sheet::term::{Form, Kind, Term};
use span::span::Span;
use std::process::Abort;
use std::test::Fail;
use table::table::Table;

const DATED: Call = Call::NoteTerm(Term {
    kind: Kind::Dated,
    form: Form::Name,
});

const LEVEL: Call = Call::NoteTerm(Term {
    kind: Kind::Level,
    form: Form::Name,
});

// Terms: 4, 6, 7, 8 and 9, from the top down.
const TERMS: [(Call, Result<(), u8>); 48] = [
    // a table letter that is not A to Z comes before all else
    (
        Call::NoteTerm(Term {
            kind: Kind::Level,
            form: Form::One {
                table: 'a',
                argument: 9,
            },
        }),
        Err(4),
    ),
    (
        Call::NoteTerm(Term {
            kind: Kind::Level,
            form: Form::Two {
                table: '[',
                first: 9,
                second: 9,
            },
        }),
        Err(4),
    ),
    // seven dated terms beside zero, and no ninth
    (DATED, Ok(())),
    (DATED, Ok(())),
    (DATED, Ok(())),
    (DATED, Ok(())),
    (DATED, Ok(())),
    (DATED, Ok(())),
    (DATED, Ok(())),
    (DATED, Err(7)),
    // a ninth dated term comes before a late argument and another count
    (
        Call::NoteTerm(Term {
            kind: Kind::Dated,
            form: Form::One {
                table: 'A',
                argument: 40,
            },
        }),
        Err(7),
    ),
    // an argument that is not earlier, for either place, before another count
    (
        Call::NoteTerm(Term {
            kind: Kind::Level,
            form: Form::One {
                table: 'A',
                argument: 8,
            },
        }),
        Err(8),
    ),
    (
        Call::NoteTerm(Term {
            kind: Kind::Level,
            form: Form::One {
                table: 'A',
                argument: 0,
            },
        }),
        Ok(()),
    ),
    (
        Call::NoteTerm(Term {
            kind: Kind::Level,
            form: Form::Two {
                table: 'A',
                first: 9,
                second: 0,
            },
        }),
        Err(8),
    ),
    (
        Call::NoteTerm(Term {
            kind: Kind::Level,
            form: Form::Two {
                table: 'B',
                first: 0,
                second: 9,
            },
        }),
        Err(8),
    ),
    (
        Call::NoteTerm(Term {
            kind: Kind::Level,
            form: Form::Two {
                table: 'B',
                first: 9,
                second: 0,
            },
        }),
        Err(8),
    ),
    // the same letter with the other count
    (
        Call::NoteTerm(Term {
            kind: Kind::Level,
            form: Form::Two {
                table: 'A',
                first: 0,
                second: 1,
            },
        }),
        Err(9),
    ),
    (
        Call::NoteTerm(Term {
            kind: Kind::Level,
            form: Form::Two {
                table: 'B',
                first: 8,
                second: 8,
            },
        }),
        Ok(()),
    ),
    (
        Call::NoteTerm(Term {
            kind: Kind::Level,
            form: Form::One {
                table: 'B',
                argument: 0,
            },
        }),
        Err(9),
    ),
    (
        Call::NoteTerm(Term {
            kind: Kind::Level,
            form: Form::One {
                table: 'B',
                argument: 99,
            },
        }),
        Err(8),
    ),
    (LEVEL, Ok(())),
    (LEVEL, Ok(())),
    (LEVEL, Ok(())),
    (LEVEL, Ok(())),
    (LEVEL, Ok(())),
    (LEVEL, Ok(())),
    (LEVEL, Ok(())),
    (LEVEL, Ok(())),
    (LEVEL, Ok(())),
    (LEVEL, Ok(())),
    (LEVEL, Ok(())),
    (LEVEL, Ok(())),
    (LEVEL, Ok(())),
    (LEVEL, Ok(())),
    (LEVEL, Ok(())),
    (LEVEL, Ok(())),
    (LEVEL, Ok(())),
    (LEVEL, Ok(())),
    (LEVEL, Ok(())),
    (LEVEL, Ok(())),
    (LEVEL, Ok(())),
    (LEVEL, Ok(())),
    // 32 terms, which comes before the dated terms and the arguments
    (LEVEL, Err(6)),
    (DATED, Err(6)),
    (
        Call::NoteTerm(Term {
            kind: Kind::Level,
            form: Form::One {
                table: 'A',
                argument: 99,
            },
        }),
        Err(6),
    ),
    (
        Call::NoteTerm(Term {
            kind: Kind::Level,
            form: Form::One {
                table: 'a',
                argument: 0,
            },
        }),
        Err(4),
    ),
    // a new engine has room again
    (Call::Renew, Ok(())),
    (DATED, Ok(())),
];

// Rows: 12, 13, 14 and 15.
const ROWS: [(Call, Result<(), u8>); 27] = [
    (DATED, Ok(())),
    (LEVEL, Ok(())),
    // a term that is not there, a span on a level, a bound past its limits, in this order
    (
        Call::NoteRow(Row::Span {
            left: 3,
            right: 0,
            bound: 0,
        }),
        Err(12),
    ),
    (
        Call::NoteRow(Row::Span {
            left: 0,
            right: 3,
            bound: 2000000,
        }),
        Err(12),
    ),
    (
        Call::NoteRow(Row::Span {
            left: 2,
            right: 3,
            bound: 0,
        }),
        Err(12),
    ),
    (Call::NoteRow(Row::Same { left: 0, right: 3 }), Err(12)),
    (
        Call::NoteRow(Row::Unlike {
            left: 255,
            right: 0,
        }),
        Err(12),
    ),
    (
        Call::NoteRow(Row::Span {
            left: 2,
            right: 0,
            bound: 0,
        }),
        Err(13),
    ),
    (
        Call::NoteRow(Row::Span {
            left: 0,
            right: 2,
            bound: 0,
        }),
        Err(13),
    ),
    (
        Call::NoteRow(Row::Span {
            left: 2,
            right: 2,
            bound: 5000000,
        }),
        Err(13),
    ),
    (
        Call::NoteRow(Row::Span {
            left: 1,
            right: 0,
            bound: 1000001,
        }),
        Err(14),
    ),
    (
        Call::NoteRow(Row::Span {
            left: 0,
            right: 1,
            bound: -1000001,
        }),
        Err(14),
    ),
    (
        Call::NoteRow(Row::Span {
            left: 0,
            right: 0,
            bound: 2147483647,
        }),
        Err(14),
    ),
    // both limits, and rows of one term with itself
    (
        Call::NoteRow(Row::Span {
            left: 1,
            right: 0,
            bound: 1000000,
        }),
        Ok(()),
    ),
    (
        Call::NoteRow(Row::Span {
            left: 0,
            right: 1,
            bound: -1000000,
        }),
        Ok(()),
    ),
    (Call::NoteRow(Row::Same { left: 1, right: 1 }), Ok(())),
    (Call::NoteRow(Row::Unlike { left: 2, right: 2 }), Ok(())),
    (
        Call::NoteRow(Row::Span {
            left: 1,
            right: 1,
            bound: 0,
        }),
        Ok(()),
    ),
    // strike takes rows off, and refuses where there is none
    (Call::Strike, Ok(())),
    (Call::Strike, Ok(())),
    (Call::Strike, Ok(())),
    (Call::Strike, Ok(())),
    (Call::Strike, Ok(())),
    (Call::Strike, Err(15)),
    // terms may follow rows
    (Call::NoteRow(Row::Same { left: 0, right: 1 }), Ok(())),
    (DATED, Ok(())),
    (
        Call::NoteRow(Row::Span {
            left: 3,
            right: 1,
            bound: 0,
        }),
        Ok(()),
    ),
];

// Marks and codes: 19 to 23.
const MARKS: [(Call, Result<(), u8>); 38] = [
    (DATED, Ok(())),
    // a row that is not there
    (Call::Mute(0), Err(22)),
    (Call::Unmute(0), Err(22)),
    (
        Call::NoteRow(Row::Span {
            left: 1,
            right: 0,
            bound: 3,
        }),
        Ok(()),
    ),
    (Call::Mute(1), Err(22)),
    // muting may repeat
    (Call::Mute(0), Ok(())),
    (Call::Mute(0), Ok(())),
    (Call::Unmute(0), Ok(())),
    (Call::Unmute(0), Ok(())),
    // codes: zero takes only 0, the next 0 to 2, and then there is no seat left
    (Call::Lift, Err(21)),
    (Call::Place(1), Err(20)),
    (Call::Place(0), Ok(())),
    (Call::Place(3), Err(20)),
    (Call::Place(2), Ok(())),
    (Call::Place(0), Err(19)),
    (Call::Place(255), Err(19)),
    // while codes are placed nothing else is touched, and every other ground comes first
    (DATED, Err(23)),
    (
        Call::NoteTerm(Term {
            kind: Kind::Level,
            form: Form::One {
                table: 'a',
                argument: 0,
            },
        }),
        Err(4),
    ),
    (
        Call::NoteTerm(Term {
            kind: Kind::Level,
            form: Form::One {
                table: 'A',
                argument: 2,
            },
        }),
        Err(8),
    ),
    (
        Call::NoteRow(Row::Span {
            left: 1,
            right: 0,
            bound: 5,
        }),
        Err(23),
    ),
    (
        Call::NoteRow(Row::Span {
            left: 9,
            right: 0,
            bound: 5,
        }),
        Err(12),
    ),
    (Call::Strike, Err(23)),
    (Call::Mute(0), Err(23)),
    (Call::Mute(1), Err(22)),
    (Call::Unmute(0), Err(23)),
    (Call::Unmute(9), Err(22)),
    // lifted codes make way
    (Call::Lift, Ok(())),
    (Call::Strike, Err(23)),
    (Call::Lift, Ok(())),
    (Call::Lift, Err(21)),
    (Call::Strike, Ok(())),
    (Call::Strike, Err(15)),
    // renew with a code placed
    (Call::Place(0), Ok(())),
    (Call::Renew, Ok(())),
    (Call::Lift, Err(21)),
    (DATED, Ok(())),
    (Call::Place(0), Ok(())),
    // no row to strike comes before the codes
    (Call::Strike, Err(15)),
];

// Makes the call, and gives a refusal by its number. It must show the engine's letter.
fn answer<E: Engine>(rt: &impl Abort, call: Call, engine: &mut E) -> Result<(), u8> {
    make(call, engine).map_err(|fault| {
        assert_eq!(rt; fault.layer, E::LETTER);
        fault.cause.number()
    })
}

// Makes the calls in turn in a new engine, and compares each answer.
fn follow<E: Engine>(rt: &impl Abort, engine: &mut E, calls: &[(Call, Result<(), u8>)]) {
    for (k, (call, want)) in calls.iter().enumerate() {
        assert_eq!(rt; answer(rt, *call, engine), *want, "call {k}");
    }
}

// The same for each engine that there is.
fn follow_in_each(
    rt: &(impl Abort + AllocGlobal),
    calls: &[(Call, Result<(), u8>)],
) -> Result<(), Fail> {
    let mut span = Span::new(rt.alloc())?;
    follow(rt, &mut span, calls);
    let mut table = Table::new(rt.alloc())?;
    follow(rt, &mut table, calls);
    Ok(())
}

#[test]
fn terms_are_refused_in_order(rt: HostRuntime) -> Result<(), Fail> {
    follow_in_each(&rt, &TERMS)
}

#[test]
fn rows_are_refused_in_order(rt: HostRuntime) -> Result<(), Fail> {
    follow_in_each(&rt, &ROWS)
}

#[test]
fn marks_and_codes_are_refused_in_order(rt: HostRuntime) -> Result<(), Fail> {
    follow_in_each(&rt, &MARKS)
}

#[test]
fn each_engine_has_its_letter(rt: HostRuntime) {
    assert_eq!(rt; <Span as Engine>::LETTER, 'S');
    assert_eq!(rt; <Table as Engine>::LETTER, 'T');
}

// The sixty-fifth row is refused, before anything else is asked of it.
fn fill_with_rows<E: Engine>(rt: &impl Abort, engine: &mut E) {
    let row = Call::NoteRow(Row::Same { left: 0, right: 0 });
    let bad_row = Call::NoteRow(Row::Same { left: 0, right: 9 });
    for _ in 0..64u8 {
        assert_eq!(rt; answer(rt, row, engine), Ok(()));
    }
    assert_eq!(rt; answer(rt, bad_row, engine), Err(11));
    assert_eq!(rt; answer(rt, Call::Strike, engine), Ok(()));
    assert_eq!(rt; answer(rt, bad_row, engine), Err(12));
}

#[test]
fn sixty_four_rows(rt: HostRuntime) -> Result<(), Fail> {
    fill_with_rows(&rt, &mut Span::new(rt.alloc())?);
    fill_with_rows(&rt, &mut Table::new(rt.alloc())?);
    Ok(())
}
