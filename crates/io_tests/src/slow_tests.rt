//! A source and a sink that move one byte a call: each of their calls failing in turn is a fault at
//! its place, and what was moved before is neither lost nor moved twice.

use srx_edge::{DrawFault, MemSink, MemSource, PourFault, SlowSink, SlowSource, draw, pour};
use std::test::Fail;

/// Six bytes and the end are seven reads; what is left is drawn afterwards.
#[test]
fn each_slow_read_fails(rt: HostRuntime) -> Result<(), Fail> {
    let alloc = rt.alloc();
    for call in 1..8 {
        let mut source = SlowSource::new(MemSource::new(alloc, b"abcdef", &[call])?);
        let refused = draw(alloc, &mut source, 6);
        assert_eq!(rt; refused.err(), Some(DrawFault::Failed), "at read {call}");
        let rest = draw(alloc, &mut source, 6)?;
        assert_eq!(rt; rest.as_slice(), b"abcdef".split_at((call - 1) as usize).1);
    }
    Ok(())
}

#[test]
fn each_slow_write_fails(rt: HostRuntime) -> Result<(), Fail> {
    let alloc = rt.alloc();
    for (call, written) in [(1, 0), (2, 1), (3, 2), (4, 3), (5, 4), (6, 5)] {
        let mut sink = SlowSink::new(MemSink::new(alloc, &[call])?);
        let refused = pour(&mut sink, b"abcdef");
        assert_eq!(rt;
            refused,
            Err(PourFault::Failed { written }),
            "at write {call}"
        );
        assert_eq!(rt; sink.sink().held().len(), written, "at write {call}");
    }
    Ok(())
}
