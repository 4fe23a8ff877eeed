// Results read off: numbers, entries and recounts.
use bench::draft::Draft;
use congruence::entry::{Arguments, Entry};
use load::load::load;
use setup::solved::Solved;
use setup::table_and_span::solve_with_table_and_span;
use sheet::fault::Cause;
use span::span::Span;
use std::alloc::{AllocError, Global};
use std::test::Fail;
use table::table::Table;

// dated x; level p = A(x); span x 0 3; span 0 x -3
const THREE: &[u8] =
    b"T\x00\x03DNxT\x00\x05L1A\x01pS\x00\x06\x01\x00\x00\x00\x00\x03S\x00\x06\x00\x01\xFF\xFF\xFF\xFD";

// span 0 0 -1
const BELOW_ITSELF: &[u8] = b"S\x00\x06\x00\x00\xFF\xFF\xFF\xFF";

const OTHER: Entry = Entry {
    table: 'Z',
    arguments: Arguments::Binary(1, 2),
    answer: 3,
};

fn solve_sheet(heap: Global, sheet: &[u8]) -> Result<Solved<Span>, AllocError> {
    let draft = Draft::new(heap)?;
    let loaded = load(draft, sheet, Table::new(heap)?, Span::new(heap)?);
    Ok(solve_with_table_and_span(loaded.bench))
}

#[test]
fn a_set_up_is_read_off(rt: HostRuntime) -> Result<(), Fail> {
    let solved = solve_sheet(rt.alloc(), THREE)?;
    assert_eq!(rt; solved.number(2).ok(), Some(4));
    assert_eq!(rt; solved.number(3), Err(Cause::NotInResult.in_layer('P')));
    assert_eq!(rt; solved.shown().code(1).ok(), Some(2));
    assert_eq!(rt;
        solved.shown().clash_row(0),
        Err(Cause::OtherVerdict.in_layer('P'))
    );
    let mut buffer = [OTHER; 2];
    assert_eq!(rt;
        solved.entries(&mut buffer[..0]),
        Err(Cause::BufferTooShort.in_layer('P'))
    );
    assert_eq!(rt; solved.entries(&mut buffer).ok(), Some(1));
    let entry = Entry {
        table: 'A',
        arguments: Arguments::Unary(3),
        answer: 4,
    };
    assert_eq!(rt; buffer, [entry, OTHER]);
    assert_eq!(rt; solved.recount(&[3], &buffer, 2).ok(), Some(4));
    assert_eq!(rt;
        solved.recount(&[2], &buffer, 2),
        Err(Cause::NotInResult.in_layer('P'))
    );
    assert_eq!(rt;
        solved.recount(&[], &buffer, 1),
        Err(Cause::NotInResult.in_layer('P'))
    );
    assert_eq!(rt; solved.recount(&[], &[], 0).ok(), Some(0));
    Ok(())
}

#[test]
fn a_clash_is_read_off(rt: HostRuntime) -> Result<(), Fail> {
    let solved = solve_sheet(rt.alloc(), BELOW_ITSELF)?;
    let mut buffer = [OTHER; 1];
    assert_eq!(rt; solved.number(9), Err(Cause::OtherVerdict.in_layer('P')));
    assert_eq!(rt;
        solved.entries(&mut buffer[..0]),
        Err(Cause::OtherVerdict.in_layer('P'))
    );
    assert_eq!(rt; buffer, [OTHER]);
    assert_eq!(rt; solved.shown().clash_row(0).ok(), Some(0));
    assert_eq!(rt; solved.recount(&[], &buffer, 0).ok(), Some(0));
    let mut bench = solved.reopen();
    assert_eq!(rt; bench.strike().ok(), Some(()));
    assert_eq!(rt; solve_with_table_and_span(bench).number(0).ok(), Some(0));
    Ok(())
}
