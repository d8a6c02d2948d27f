//! Copies of containers, which no reader makes.

use plain_list::{Boxed, Bytes};
use std::test::Fail;

#[test]
fn copies_are_equal(rt: HostRuntime) -> Result<(), Fail> {
    let alloc = rt.alloc();
    let bytes = Bytes::from_slice(alloc, b"coin")?;
    assert!(rt; bytes.clone()? == bytes);
    let boxed = Boxed::new(alloc, 7u64)?;
    assert!(rt; boxed.clone()? == boxed);
    Ok(())
}
