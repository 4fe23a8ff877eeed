// Lines, and the commands that they say.
use crate::command::{Command, read_command};
use sheet::row::Row;

const CASES: [(&[u8], Option<Command>); 20] = [
    (b"strike", Some(Command::Strike)),
    (b"  judge \r", Some(Command::Judge)),
    (b"reopen\r", Some(Command::Reopen)),
    (
        b"enter span 1 0 -3",
        Some(Command::Enter(Row::Span {
            left: 1,
            right: 0,
            bound: -3,
        })),
    ),
    (
        b"enter span 1 0 -2147483648",
        Some(Command::Enter(Row::Span {
            left: 1,
            right: 0,
            bound: -2147483648,
        })),
    ),
    (
        b" enter  same 0 255 ",
        Some(Command::Enter(Row::Same {
            left: 0,
            right: 255,
        })),
    ),
    (
        b"enter unlike 7 012",
        Some(Command::Enter(Row::Unlike { left: 7, right: 12 })),
    ),
    // numbers past their ends, a sign too many, and none
    (b"enter same 0 256", None),
    (b"enter span 1 0 2147483648", None),
    (b"enter span 1 0 +3", None),
    (b"enter same -1 0", None),
    (b"enter span 1 0 -", None),
    // words too few, too many, or of another kind
    (b"enter", None),
    (b"enter same 1", None),
    (b"enter same 1 2 3", None),
    (b"enter span 1 2", None),
    (b"strike judge", None),
    (b"Strike", None),
    (b"strike\x09\xFF", None),
    (b"", None),
];

#[test]
fn lines_are_read(rt: HostRuntime) {
    for (line, command) in CASES {
        assert_eq!(rt; read_command(line), command, "{line:?}");
    }
}
