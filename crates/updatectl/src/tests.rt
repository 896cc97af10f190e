use crate::std_edge::{StdSink, StdSource};
use std::test::*;
use upd_base::{EdgeFault, Sink, Source};

#[test]
fn std_edges(rt: HostRuntime) -> Result<(), Fail> {
    let alloc = rt.alloc();
    let mut source = StdSource::new(b"ab".as_slice());
    let mut buffer = [0u8; 4];
    assert_eq!(rt; source.read(&mut buffer), Ok(2));
    assert_eq!(rt; source.read(&mut buffer), Ok(0));
    let mut sink = StdSink::new(Vec::new(alloc));
    assert_eq!(rt; sink.write(b"ab"), Ok(2));
    let mut room = [0u8; 1];
    let mut full = StdSink::new(room.as_mut_slice());
    assert_eq!(rt; full.write(b"ab"), Ok(1));
    assert_eq!(rt; full.write(b"b"), Err(EdgeFault::Failed));
    Ok(())
}
