// The writer: what it writes and keeps, and every refusal at both sides of each limit.
use sheet::fault::Fault;
use sheet::field::Field;
use sheet::row::Row;
use sheet::term::{Form, Kind, Term};
use sheet::writer::write_field;
use std::process::Abort;
use std::test::Fail;

fn term(kind: Kind, form: Form, label: &[u8]) -> Field<'_> {
    Field::Term {
        term: Term { kind, form },
        label,
    }
}

fn one(table: char) -> Form {
    Form::One { table, argument: 7 }
}

fn two(table: char) -> Form {
    Form::Two {
        table,
        first: 7,
        second: 8,
    }
}

// Checks the field in buffers with just enough room, with more and with less.
fn check_written(rt: &impl Abort, field: &Field<'_>, bytes: &[u8]) -> Result<(), Fail> {
    let length = bytes.len();
    assert!(rt; 0 < length && length < 32);
    check_room(rt, field, bytes, length);
    check_room(rt, field, bytes, length + 1);
    check_room(rt, field, bytes, 32);
    check_refused(rt, field, length - 1, 18)?;
    check_refused(rt, field, 0, 18)
}

// Checks that the bytes stand at the front of a buffer with this room, and that nothing else changed.
fn check_room(rt: &impl Abort, field: &Field<'_>, bytes: &[u8], room: usize) {
    let mut buffer = [170; 32];
    let answer = write_with_room(rt, field, &mut buffer, room, bytes);
    assert_eq!(rt; answer.ok(), Some(bytes.len()), "{bytes:?}");
}

// Checks that the field is refused by this number, as people see it, and that the buffer is as it was.
fn check_refused(rt: &impl Abort, field: &Field<'_>, room: usize, number: u8) -> Result<(), Fail> {
    let mut buffer = [170; 32];
    match write_with_room(rt, field, &mut buffer, room, b"") {
        Ok(_) => Err(Fail::new("written")),
        Err(fault) => {
            assert_eq!(rt; fault.cause.number(), number);
            assert_eq!(rt; fault.layer, 'R');
            Ok(())
        }
    }
}

// Writes into the front of a buffer of 170s, and checks that it begins with the bytes then and is as it was after them.
fn write_with_room(
    rt: &impl Abort,
    field: &Field<'_>,
    buffer: &mut [u8],
    room: usize,
    bytes: &[u8],
) -> Result<usize, Fault> {
    assert!(rt; room <= buffer.len() && bytes.len() <= buffer.len());
    let answer = write_field(field, &mut buffer[0..room]);
    let (front, back) = buffer.split_at(bytes.len());
    assert_eq!(rt; front, bytes);
    for byte in back {
        assert_eq!(rt; *byte, 170);
    }
    answer
}

#[test]
fn terms_are_written(rt: HostRuntime) -> Result<(), Fail> {
    check_written(&rt, &term(Kind::Dated, Form::Name, b"x"), b"T\x00\x03DNx")?;
    check_written(
        &rt,
        &term(Kind::Level, Form::Name, b"abcdefghijkl"),
        b"T\x00\x0ELNabcdefghijkl",
    )?;
    check_written(
        &rt,
        &term(Kind::Level, one('A'), b"!"),
        b"T\x00\x05L1A\x07!",
    )?;
    check_written(
        &rt,
        &term(Kind::Dated, one('Z'), b"~"),
        b"T\x00\x05D1Z\x07~",
    )?;
    check_written(
        &rt,
        &term(Kind::Level, two('M'), b"abcdefghijkl"),
        b"T\x00\x11L2M\x07\x08abcdefghijkl",
    )?;
    check_written(
        &rt,
        &term(Kind::Dated, two('B'), b"x"),
        b"T\x00\x06D2B\x07\x08x",
    )
}

#[test]
fn rows_are_written(rt: HostRuntime) -> Result<(), Fail> {
    check_written(
        &rt,
        &Field::Row(Row::Same {
            left: 1,
            right: 255,
        }),
        b"E\x00\x02\x01\xFF",
    )?;
    check_written(
        &rt,
        &Field::Row(Row::Unlike { left: 0, right: 2 }),
        b"U\x00\x02\x00\x02",
    )
}

#[test]
fn spans_are_written(rt: HostRuntime) -> Result<(), Fail> {
    let cases: [(i32, &[u8]); 5] = [
        (0, b"S\x00\x06\x02\x09\x00\x00\x00\x00"),
        (-3, b"S\x00\x06\x02\x09\xFF\xFF\xFF\xFD"),
        (16_909_060, b"S\x00\x06\x02\x09\x01\x02\x03\x04"),
        (2_147_483_647, b"S\x00\x06\x02\x09\x7F\xFF\xFF\xFF"),
        (-2_147_483_648, b"S\x00\x06\x02\x09\x80\x00\x00\x00"),
    ];
    for (bound, bytes) in cases {
        check_written(
            &rt,
            &Field::Row(Row::Span {
                left: 2,
                right: 9,
                bound,
            }),
            bytes,
        )?;
    }
    Ok(())
}

// The numbers 4, 5 and 18, in that order.
#[test]
fn terms_are_refused(rt: HostRuntime) -> Result<(), Fail> {
    // U+0141 is 256 past A
    for table in ['@', '[', 'a', '\u{141}'] {
        check_refused(&rt, &term(Kind::Level, one(table), b"x"), 32, 4)?;
        check_refused(&rt, &term(Kind::Level, two(table), b"x"), 32, 4)?;
        check_refused(&rt, &term(Kind::Dated, one(table), b""), 0, 4)?;
    }
    let labels: [&[u8]; 5] = [b"", b"abcdefghijklm", b" ", b"a\x7F", b"\xE1"];
    for label in labels {
        check_refused(&rt, &term(Kind::Dated, Form::Name, label), 32, 5)?;
        check_refused(&rt, &term(Kind::Level, one('A'), label), 32, 5)?;
        check_refused(&rt, &term(Kind::Level, two('Z'), label), 0, 5)?;
    }
    Ok(())
}
