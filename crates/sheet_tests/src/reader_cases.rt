// The reader: every refusal at both sides of each limit, and pairs that show the order of its tests.
use sheet::field::Field;
use sheet::reader::read_field;
use sheet::row::Row;
use std::process::Abort;
use std::test::Fail;

// A sheet, and how many bytes its first field takes.
const ACCEPTED: [(&[u8], usize); 24] = [
    // names, with labels of 1 and of 12 bytes, and the least and the greatest visible byte
    (b"T\x00\x03DNx", 6),
    (b"T\x00\x03LNx", 6),
    (b"T\x00\x0EDNabcdefghijkl", 17),
    (b"T\x00\x03DN!", 6),
    (b"T\x00\x03DN~", 6),
    (b"T\x00\x05DN!a~", 8),
    // one argument: the first and the last letter, any byte for a term's number
    (b"T\x00\x05L1A\x01y", 8),
    (b"T\x00\x05D1Z\x00y", 8),
    (b"T\x00\x05L1M\xFFy", 8),
    (b"T\x00\x10L1A\x01abcdefghijkl", 19),
    // two arguments
    (b"T\x00\x06L2A\x01\x02y", 9),
    (b"T\x00\x06D2Z\x00\xFFy", 9),
    (b"T\x00\x11L2A\x01\x02abcdefghijkl", 20),
    // rows
    (b"S\x00\x06\x01\x00\x00\x00\x00\x03", 9),
    (b"S\x00\x06\xFF\xFF\x80\x00\x00\x00", 9),
    (b"E\x00\x02\x01\x02", 5),
    (b"E\x00\x02\x00\xFF", 5),
    (b"U\x00\x02\x01\x01", 5),
    // whatever follows the field is left
    (b"T\x00\x03DNxy", 6),
    (b"T\x00\x03DNx\x00", 6),
    (b"S\x00\x06\x01\x00\x00\x00\x00\x03S", 9),
    (b"E\x00\x02\x01\x02E\x00\x02\x01\x02", 5),
    (b"U\x00\x02\x01\x02X", 5),
    (b"U\x00\x02\x01\x02\xFF\xFF\xFF", 5),
];

// A sheet, and the number by which its first field is refused. Numbers, since these are what people see.
const REFUSED: [(&[u8], u8); 83] = [
    // fewer than three bytes, or than the stated length
    (b"", 1),
    (b"T", 1),
    (b"T\x00", 1),
    (b"T\x00\x03", 1),
    (b"T\x00\x03DN", 1),
    (b"S\x00\x06\x01\x00\x00\x00\x00", 1),
    (b"E\x00\x02\x01", 1),
    (b"U\x00\x02", 1),
    (b"U\x00\x02\x01", 1),
    (b"T\x01\x03DNx", 1),
    (b"E\x01\x02\x01\x02", 1),
    // an unknown tag, a wrong length, kind or label that is cut short is cut short
    (b"X", 1),
    (b"X\x00", 1),
    (b"X\x00\x01", 1),
    (b"S\x00\x07\x01\x00\x00\x00\x00\x03", 1),
    (b"E\x00\x03\x01\x02", 1),
    (b"T\x00\x01", 1),
    (b"T\x00\x04XNx", 1),
    (b"T\x00\x0FDNabcdefghijkl", 1),
    // an unknown tag, whatever its length
    (b"X\x00\x00", 2),
    (b"X\x00\x02\x01\x02", 2),
    (b"t\x00\x03DNx", 2),
    (b"R\x00\x03DNx", 2),
    (b"F\x00\x02\x01\x02", 2),
    (b"V\x00\x02\x01\x02", 2),
    (b"D\x00\x02\x01\x02", 2),
    (b"\x00\x00\x00", 2),
    (b"\xFF\x00\x02\x01\x02", 2),
    (b"\xD4\x00\x03DNx", 2),
    // a wrong length for the tag
    (b"S\x00\x00", 3),
    (b"S\x00\x05\x01\x00\x00\x00\x00", 3),
    (b"S\x00\x07\x01\x00\x00\x00\x00\x03\x00", 3),
    (b"E\x00\x00", 3),
    (b"E\x00\x01\x01", 3),
    (b"E\x00\x03\x01\x02\x03", 3),
    (b"E\x00\x06\x01\x00\x00\x00\x00\x03", 3),
    (b"U\x00\x00", 3),
    (b"U\x00\x01\x01", 3),
    (b"U\x00\x03\x01\x02\x03", 3),
    (b"T\x00\x00", 3),
    (b"T\x00\x01D", 3),
    // before a wrong kind
    (b"T\x00\x01X", 3),
    // a wrong kind
    (b"T\x00\x03XNx", 4),
    (b"T\x00\x03dNx", 4),
    (b"T\x00\x03NNx", 4),
    (b"T\x00\x03CNx", 4),
    (b"T\x00\x03ENx", 4),
    (b"T\x00\x03KNx", 4),
    (b"T\x00\x03MNx", 4),
    (b"T\x00\x03\xC4Nx", 4),
    // a wrong form
    (b"T\x00\x03Dnx", 4),
    (b"T\x00\x03DMx", 4),
    (b"T\x00\x03DOx", 4),
    (b"T\x00\x05D0A\x01x", 4),
    (b"T\x00\x07D3A\x01\x02\x03x", 4),
    (b"T\x00\x05D\x01A\x01x", 4),
    // a wrong table letter
    (b"T\x00\x05L1@\x01y", 4),
    (b"T\x00\x05L1[\x01y", 4),
    (b"T\x00\x05L1a\x01y", 4),
    (b"T\x00\x06L2@\x01\x02y", 4),
    (b"T\x00\x06L2[\x01\x02y", 4),
    (b"T\x00\x06L2\xC1\x01\x02y", 4),
    // no table letter, or too few arguments
    (b"T\x00\x02L1", 4),
    (b"T\x00\x03L1A", 4),
    (b"T\x00\x02L2", 4),
    (b"T\x00\x03L2A", 4),
    (b"T\x00\x04L2A\x01", 4),
    // before a wrong label
    (b"T\x00\x02XN", 4),
    (b"T\x00\x03XN ", 4),
    (b"T\x00\x03D0 ", 4),
    (b"T\x00\x04L1@\x01", 4),
    (b"T\x00\x05L2@\x01\x02", 4),
    // no label
    (b"T\x00\x02DN", 5),
    (b"T\x00\x04L1A\x01", 5),
    (b"T\x00\x05L2A\x01\x02", 5),
    // a byte that is not visible, first, last or between
    (b"T\x00\x03DN ", 5),
    (b"T\x00\x05DNab\x7F", 5),
    (b"T\x00\x05DNa\x00b", 5),
    (b"T\x00\x05DNa\xE1b", 5),
    (b"T\x00\x05L1A\x01 ", 5),
    (b"T\x00\x05L1A\x01\x7F", 5),
    (b"T\x00\x06L2A\x01\x02 ", 5),
    (b"T\x00\x06L2A\x01\x02\x7F", 5),
];

// Sheets whose first field has a label of 13 bytes.
const LONG_LABELS: [&[u8]; 3] = [
    b"T\x00\x0FDNabcdefghijklm",
    b"T\x00\x11L1A\x01abcdefghijklm",
    b"T\x00\x12L2A\x01\x02abcdefghijklm",
];

// A span, and its bound.
const BOUNDS: [(&[u8], i32); 8] = [
    (b"S\x00\x06\x01\x02\x00\x00\x00\x00", 0),
    (b"S\x00\x06\x01\x02\x00\x00\x00\x03", 3),
    (b"S\x00\x06\x01\x02\xFF\xFF\xFF\xFD", -3),
    (b"S\x00\x06\x01\x02\x00\x0F\x42\x40", 1_000_000),
    (b"S\x00\x06\x01\x02\xFF\xF0\xBD\xC0", -1_000_000),
    (b"S\x00\x06\x01\x02\x01\x02\x03\x04", 16_909_060),
    (b"S\x00\x06\x01\x02\x7F\xFF\xFF\xFF", 2_147_483_647),
    (b"S\x00\x06\x01\x02\x80\x00\x00\x00", -2_147_483_648),
];

// Checks that the first field is refused by this number, and that nothing is taken off the sheet.
fn check_refused(rt: &impl Abort, sheet: &[u8], number: u8) -> Result<(), Fail> {
    let (outcome, rest) = read_field(sheet);
    assert_eq!(rt; rest, sheet, "rest of {sheet:?}");
    match outcome {
        Ok(_) => Err(Fail::new(format_args!("accepted: {sheet:?}"))),
        Err(fault) => {
            assert_eq!(rt; fault.cause.number(), number, "{sheet:?}");
            assert_eq!(rt; fault.layer, 'R');
            Ok(())
        }
    }
}

#[test]
fn fields_are_accepted(rt: HostRuntime) {
    for (sheet, length) in ACCEPTED {
        let (outcome, rest) = read_field(sheet);
        assert!(rt; outcome.is_ok(), "{sheet:?}");
        assert!(rt; length <= sheet.len());
        assert_eq!(rt; rest, &sheet[length..], "{sheet:?}");
    }
}

#[test]
fn fields_are_refused(rt: HostRuntime) -> Result<(), Fail> {
    for (sheet, number) in REFUSED {
        check_refused(&rt, sheet, number)?;
    }
    for sheet in LONG_LABELS {
        check_refused(&rt, sheet, 5)?;
    }
    Ok(())
}

// The length has two bytes: 258 is not 2.
#[test]
fn length_has_a_high_byte(rt: HostRuntime) -> Result<(), Fail> {
    let mut sheet = [0; 261];
    sheet[0] = b'E';
    sheet[1] = 1;
    sheet[2] = 2;
    check_refused(&rt, &sheet, 3)?;
    check_refused(&rt, &sheet[0..260], 1)
}

// A term of 258 bytes has a label that is too long.
#[test]
fn label_has_256_bytes(rt: HostRuntime) -> Result<(), Fail> {
    let mut sheet = [b'a'; 261];
    sheet[0] = b'T';
    sheet[1] = 1;
    sheet[2] = 2;
    sheet[3] = b'D';
    sheet[4] = b'N';
    check_refused(&rt, &sheet, 5)?;
    check_refused(&rt, &sheet[0..260], 1)
}

#[test]
fn bounds_have_their_sign(rt: HostRuntime) -> Result<(), Fail> {
    for (sheet, expected) in BOUNDS {
        match read_field(sheet).0 {
            Ok(Field::Row(Row::Span { left, right, bound })) => {
                assert_eq!(rt; (left, right, bound), (1, 2, expected));
            }
            _ => return Err(Fail::new(format_args!("no span: {sheet:?}"))),
        }
    }
    Ok(())
}
