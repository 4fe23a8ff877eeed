// Inputs of several lengths.
use crate::input::read_first;
use std::test::Fail;

const LONG: [u8; 9000] = [7; 9000];

#[test]
fn the_first_bytes_are_read(rt: HostRuntime) -> Result<(), Fail> {
    for length in [0, 1, 8191, 8192, 8193, 9000] {
        let input = LONG.get(0..length).unwrap_or_default();
        let sheet = read_first(rt.alloc(), input)?;
        assert_eq!(rt; sheet.len(), if length < 8192 { length } else { 8192 });
    }
    Ok(())
}
