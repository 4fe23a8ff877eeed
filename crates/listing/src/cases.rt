// Whole sheets, and the answers to them.
use crate::listing::list_sheet;
use std::test::Fail;

#[rattlefmt::skip]
const CASES: [(&[u8], &str); 20] = [
    // zero alone
    (
        b"",
        "setup\nterm 0 0\n",
    ),
    // x and y, of which nothing is said
    (
        b"T\x00\x03DNxT\x00\x03DNy",
        "setup\nterm 0 0\nterm 1 -1\nterm 2 -2\n",
    ),
    // x from 4 to 6, and there a level unlike those at 4 and at 6
    (
        b"T\x00\x03DNxT\x00\x03DNaT\x00\x03DNbT\x00\x03DNcT\x00\x05L1A\x01pT\x00\x05L1A\x02q\
        T\x00\x05L1A\x03rT\x00\x05L1A\x04sS\x00\x06\x02\x00\x00\x00\x00\x04\
        S\x00\x06\x00\x02\xFF\xFF\xFF\xFCS\x00\x06\x03\x00\x00\x00\x00\x05\
        S\x00\x06\x00\x03\xFF\xFF\xFF\xFBS\x00\x06\x04\x00\x00\x00\x00\x06\
        S\x00\x06\x00\x04\xFF\xFF\xFF\xFAS\x00\x06\x01\x00\x00\x00\x00\x06\
        S\x00\x06\x00\x01\xFF\xFF\xFF\xFCU\x00\x02\x05\x06U\x00\x02\x05\x08",
        "setup\nterm 0 0\nterm 1 5\nterm 2 4\nterm 3 5\nterm 4 6\nterm 5 7\nterm 6 8\nterm 7 7\nterm 8 9\nentry A 5 7\nentry A 4 8\nentry A 6 9\n",
    ),
    // the same from 4 to 5; and with a row that is not needed
    (
        b"T\x00\x03DNxT\x00\x03DNaT\x00\x03DNbT\x00\x05L1A\x01pT\x00\x05L1A\x02qT\x00\x05L1A\x03r\
        S\x00\x06\x02\x00\x00\x00\x00\x04S\x00\x06\x00\x02\xFF\xFF\xFF\xFC\
        S\x00\x06\x03\x00\x00\x00\x00\x05S\x00\x06\x00\x03\xFF\xFF\xFF\xFB\
        S\x00\x06\x01\x00\x00\x00\x00\x05S\x00\x06\x00\x01\xFF\xFF\xFF\xFCU\x00\x02\x04\x05\
        U\x00\x02\x04\x06",
        "clash\nrow 0\nrow 1\nrow 2\nrow 3\nrow 4\nrow 5\nrow 6\nrow 7\n",
    ),
    (
        b"T\x00\x03DNxT\x00\x03DNaT\x00\x03DNbT\x00\x05L1A\x01pT\x00\x05L1A\x02qT\x00\x05L1A\x03r\
        S\x00\x06\x02\x00\x00\x00\x00\x04S\x00\x06\x00\x02\xFF\xFF\xFF\xFC\
        S\x00\x06\x03\x00\x00\x00\x00\x05S\x00\x06\x00\x03\xFF\xFF\xFF\xFB\
        S\x00\x06\x01\x00\x00\x00\x00\x05S\x00\x06\x00\x01\xFF\xFF\xFF\xFCU\x00\x02\x04\x05\
        U\x00\x02\x04\x06S\x00\x06\x01\x02\x00\x00\x00\x03",
        "clash\nrow 0\nrow 1\nrow 2\nrow 3\nrow 4\nrow 5\nrow 6\nrow 7\n",
    ),
    // zero below itself, and at most itself
    (
        b"S\x00\x06\x00\x00\xFF\xFF\xFF\xFF",
        "clash\nrow 0\n",
    ),
    (
        b"S\x00\x06\x00\x00\x00\x00\x00\x00",
        "setup\nterm 0 0\n",
    ),
    // two rows that cannot be met
    (
        b"U\x00\x02\x00\x00S\x00\x06\x00\x00\xFF\xFF\xFF\xFF",
        "clash\nrow 1\n",
    ),
    // levels at two instants that coincide
    (
        b"T\x00\x03DNxT\x00\x03DNyT\x00\x05L1A\x01pT\x00\x05L1A\x02q\
        S\x00\x06\x01\x02\x00\x00\x00\x00S\x00\x06\x02\x01\x00\x00\x00\x00U\x00\x02\x03\x04",
        "clash\nrow 0\nrow 1\nrow 2\n",
    ),
    // a table that leads back after three steps and after five
    (
        b"T\x00\x03LNpT\x00\x05L1A\x01aT\x00\x05L1A\x02bT\x00\x05L1A\x03cT\x00\x05L1A\x04d\
        T\x00\x05L1A\x05eE\x00\x02\x04\x01E\x00\x02\x06\x01U\x00\x02\x02\x01",
        "clash\nrow 0\nrow 1\nrow 2\n",
    ),
    // the greatest bound, and one past it
    (
        b"T\x00\x03DNxS\x00\x06\x01\x00\x00\x0FB@S\x00\x06\x00\x01\xFF\xF0\xBD\xC0",
        "setup\nterm 0 0\nterm 1 1000000\n",
    ),
    (
        b"T\x00\x03DNxS\x00\x06\x01\x00\x00\x0FBA",
        "refused 14 B 6\n",
    ),
    // a table at two terms, asked the same twice; an instant that is an application; a level that is an instant
    (
        b"T\x00\x03LNpT\x00\x06D2B\x01\x00xT\x00\x06L2B\x01\x00qT\x00\x05L1C\x03rE\x00\x02\x01\x02\
        S\x00\x06\x02\x00\xFF\xFF\xFF\xFD",
        "setup\nterm 0 0\nterm 1 -3\nterm 2 -3\nterm 3 -3\nterm 4 1\nentry B -3 0 -3\nentry C -3 1\n",
    ),
    // groups without an instant, one of two terms
    (
        b"T\x00\x03LNpT\x00\x03LNqT\x00\x03LNrE\x00\x02\x01\x03U\x00\x02\x01\x02",
        "setup\nterm 0 0\nterm 1 1\nterm 2 2\nterm 3 1\n",
    ),
    // a term behind a row, an argument that does not stand earlier, a letter with another count, a row of no term, and a tag that is none
    (
        b"T\x00\x03DNxS\x00\x06\x01\x00\x00\x00\x00\x01T\x00\x03LNp",
        "refused 10 L 15\n",
    ),
    (
        b"T\x00\x05L1A\x01y",
        "refused 8 D 0\n",
    ),
    (
        b"T\x00\x05L1A\x00pT\x00\x06L2A\x00\x00q",
        "refused 9 D 8\n",
    ),
    (
        b"E\x00\x02\x00\x03",
        "refused 12 B 0\n",
    ),
    (
        b"T\x00\x03DNxX\x00\x00",
        "refused 2 R 6\n",
    ),
    // cut short behind a row
    (
        b"S\x00\x06\x00\x00\x00\x00\x00\x01E\x00",
        "refused 1 R 9\n",
    ),
];

#[test]
fn sheets_are_answered(rt: HostRuntime) -> Result<(), Fail> {
    for (sheet, text) in CASES {
        let listing = list_sheet(rt.alloc(), sheet)?;
        assert_eq!(rt; listing.text.as_str(), text);
    }
    Ok(())
}
