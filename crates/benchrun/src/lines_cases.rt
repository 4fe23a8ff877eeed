// A set-up and a clash in lines.
use crate::lines::{write_clash, write_setup};
use std::test::Fail;

#[test]
fn lines_are_written(rt: HostRuntime) -> Result<(), Fail> {
    let setup = write_setup(rt.alloc(), &[3, 0])?;
    assert_eq!(rt; setup.as_str(), "setup\ncode 0 3\ncode 1 0");
    let clash = write_clash(rt.alloc(), &[0, 63])?;
    assert_eq!(rt; clash.as_str(), "clash\nrow 0\nrow 63");
    assert_eq!(rt; write_setup(rt.alloc(), &[])?.as_str(), "setup");
    Ok(())
}
