// `fill` called, over reads that bring a part, and over one that fails.
use crate::fill;
use std::io::{Error, Read, Result};
use std::test::Fail;

// A reader whose every read fails.
#[derive(Drop)]
struct Broken;

impl Read for Broken {
    fn read(&mut self, _buf: &mut [u8]) -> Result<usize> {
        Err(Error::from_raw_os_error(5))
    }
}

#[test]
fn fills_over_several_reads(rt: HostRuntime) -> std::result::Result<(), Fail> {
    let mut parts = b"ab".as_slice().chain(b"cde".as_slice());
    let mut buf = [0; 4];
    assert_eq!(rt; fill(&mut parts, &mut buf)?, 4);
    assert_eq!(rt; buf, *b"abcd");
    assert_eq!(rt; fill(&mut parts, &mut [])?, 0);
    assert_eq!(rt; fill(&mut parts, &mut buf)?, 1);
    assert_eq!(rt; buf, *b"ebcd");
    assert_eq!(rt; fill(&mut parts, &mut buf)?, 0);
    Ok(())
}

#[test]
fn tells_a_read_that_fails(rt: HostRuntime) {
    let mut parts = b"ab".as_slice().chain(Broken);
    let mut buf = [0; 4];
    let told = fill(&mut parts, &mut buf).map_err(|e| e.raw_os_error());
    assert_eq!(rt; told, Err(Some(5)));
    assert_eq!(rt; buf, *b"ab\0\0");
}
