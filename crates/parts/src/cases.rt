// Whole sheets with their reports.
use crate::report::report_parts;
use std::test::Fail;

// What is said of a sheet whose one instant is zero, and is met.
const LEVELS_MET: &str = "instants met\nseat 0 term 0 code 0 date 0\nlevels met";

const LEVELS_UNMET: &str = "instants met\nseat 0 term 0 code 0 date 0\nlevels unmet";

const CASES: [(&[u8], &str); 23] = [
    // zero alone
    (b"", LEVELS_MET),
    // two instants and no row
    (
        b"T\x00\x03DNxT\x00\x03DNx",
        "instants met\nseat 0 term 0 code 0 date 0\nseat 1 term 1 code 0 date -1\nseat 2 term 2 code 0 date -2\nlevels met",
    ),
    // zero before itself, and not after itself
    (
        b"S\x00\x06\x00\x00\xFF\xFF\xFF\xFF",
        "instants unmet\nlevels met",
    ),
    (b"S\x00\x06\x00\x00\x00\x00\x00\x00", LEVELS_MET),
    // an instant at the limit of a bound, and a bound past it
    (
        b"T\x00\x03DNxS\x00\x06\x01\x00\x00\x0FB@S\x00\x06\x00\x01\xFF\xF0\xBD\xC0",
        "instants met\nseat 0 term 0 code 0 date 0\nseat 1 term 1 code 2 date 1000000\nlevels met",
    ),
    (b"T\x00\x03DNxS\x00\x06\x01\x00\x00\x0FBA", "refused 14 S 6"),
    // a level between two instants has no seat; zero is unlike itself, which does not count for the instants
    (
        b"T\x00\x03DNxT\x00\x03LNxT\x00\x03DNxU\x00\x02\x00\x00E\x00\x02\x02\x01S\x00\x06\x03\x01\xFF\xFF\xFF\xFCS\x00\x06\x00\x01\x00\x00\x00\x00",
        "instants met\nseat 0 term 0 code 0 date 0\nseat 1 term 1 code 1 date 0\nseat 2 term 3 code 0 date -4\nlevels unmet",
    ),
    // two instants that each come before the other, which does not count for the levels
    (
        b"T\x00\x03DNxT\x00\x03DNxS\x00\x06\x01\x02\xFF\xFF\xFF\xFFS\x00\x06\x02\x01\xFF\xFF\xFF\xFF",
        "instants unmet\nlevels met",
    ),
    // a term after a row, before the engine is asked
    (
        b"S\x00\x06\x00\x00\x00\x00\x00\x00T\x00\x05L1A\x09x",
        "refused 10 L 9",
    ),
    // what the reader refuses, at a later field
    (b"T\x00\x03DNxX\x00\x00", "refused 2 R 6"),
    // an argument that is not earlier
    (b"T\x00\x03DNxT\x00\x05L1A\x02x", "refused 8 S 6"),
    // a ninth instant
    (
        b"T\x00\x03DNxT\x00\x03DNxT\x00\x03DNxT\x00\x03DNxT\x00\x03DNxT\x00\x03DNxT\x00\x03DNxT\x00\x03DNx",
        "refused 7 S 42",
    ),
    // table A applied three times to p is p, so is A applied five times, and A(p) is not; then each two of the three rows
    (
        b"T\x00\x03LNpT\x00\x05L1A\x01aT\x00\x05L1A\x02bT\x00\x05L1A\x03cT\x00\x05L1A\x04dT\x00\x05L1A\x05eE\x00\x02\x04\x01E\x00\x02\x06\x01U\x00\x02\x02\x01",
        LEVELS_UNMET,
    ),
    (
        b"T\x00\x03LNpT\x00\x05L1A\x01aT\x00\x05L1A\x02bT\x00\x05L1A\x03cT\x00\x05L1A\x04dT\x00\x05L1A\x05eE\x00\x02\x04\x01E\x00\x02\x06\x01",
        LEVELS_MET,
    ),
    (
        b"T\x00\x03LNpT\x00\x05L1A\x01aT\x00\x05L1A\x02bT\x00\x05L1A\x03cT\x00\x05L1A\x04dT\x00\x05L1A\x05eE\x00\x02\x04\x01U\x00\x02\x02\x01",
        LEVELS_MET,
    ),
    (
        b"T\x00\x03LNpT\x00\x05L1A\x01aT\x00\x05L1A\x02bT\x00\x05L1A\x03cT\x00\x05L1A\x04dT\x00\x05L1A\x05eE\x00\x02\x06\x01U\x00\x02\x02\x01",
        LEVELS_MET,
    ),
    // x is y, and B(x,z) is not B(y,z); B(z,x) may differ from B(y,z)
    (
        b"T\x00\x03LNxT\x00\x03LNyT\x00\x03LNzT\x00\x06L2B\x01\x03vT\x00\x06L2B\x02\x03wE\x00\x02\x01\x02U\x00\x02\x04\x05",
        LEVELS_UNMET,
    ),
    (
        b"T\x00\x03LNxT\x00\x03LNyT\x00\x03LNzT\x00\x06L2B\x03\x01vT\x00\x06L2B\x02\x03wE\x00\x02\x01\x02U\x00\x02\x04\x05",
        LEVELS_MET,
    ),
    // a level that is unlike itself
    (b"T\x00\x03LNpU\x00\x02\x01\x01", LEVELS_UNMET),
    // the instants x and y are the same, entered in either order, and A(x) is not A(y)
    (
        b"T\x00\x03DNxT\x00\x03DNyT\x00\x05L1A\x01aT\x00\x05L1A\x02bE\x00\x02\x01\x02U\x00\x02\x03\x04",
        "instants met\nseat 0 term 0 code 0 date 0\nseat 1 term 1 code 0 date -1\nseat 2 term 2 code 0 date -2\nlevels unmet",
    ),
    (
        b"T\x00\x03DNxT\x00\x03DNyT\x00\x05L1A\x01aT\x00\x05L1A\x02bE\x00\x02\x02\x01U\x00\x02\x03\x04",
        "instants met\nseat 0 term 0 code 0 date 0\nseat 1 term 1 code 0 date -1\nseat 2 term 2 code 0 date -2\nlevels unmet",
    ),
    // an instant from 4 to 5, where table A plays what it plays neither at 4 nor at 5: each part can be met, and the sheet cannot
    (
        b"T\x00\x03DNxT\x00\x03DNaT\x00\x03DNbT\x00\x05L1A\x01uT\x00\x05L1A\x02vT\x00\x05L1A\x03wS\x00\x06\x02\x00\x00\x00\x00\x04S\x00\x06\x00\x02\xFF\xFF\xFF\xFCS\x00\x06\x03\x00\x00\x00\x00\x05S\x00\x06\x00\x03\xFF\xFF\xFF\xFBS\x00\x06\x01\x00\x00\x00\x00\x05S\x00\x06\x00\x01\xFF\xFF\xFF\xFCU\x00\x02\x04\x05U\x00\x02\x04\x06",
        "instants met\nseat 0 term 0 code 0 date 0\nseat 1 term 1 code 2 date 5\nseat 2 term 2 code 2 date 4\nseat 3 term 3 code 5 date 5\nlevels met",
    ),
    // two instants at one tick, by their spans alone, and table A plays different levels at them
    (
        b"T\x00\x03DNxT\x00\x03DNyT\x00\x05L1A\x01aT\x00\x05L1A\x02bS\x00\x06\x01\x02\x00\x00\x00\x00S\x00\x06\x02\x01\x00\x00\x00\x00U\x00\x02\x03\x04",
        "instants met\nseat 0 term 0 code 0 date 0\nseat 1 term 1 code 0 date -1\nseat 2 term 2 code 1 date -1\nlevels met",
    ),
];

#[test]
fn sheets_have_their_reports(rt: HostRuntime) -> Result<(), Fail> {
    for (k, (sheet, want)) in CASES.iter().enumerate() {
        let report = report_parts(rt.alloc(), sheet)?;
        assert!(rt; report.text.as_str() == *want, "case {k}");
    }
    Ok(())
}
