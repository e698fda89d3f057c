//! Chunks and jobs of runs whose last step stands at the edge of a chunk or of an instance.
use crate::chunks::plan_of;
use std::io;
use std::test::*;

#[test]
fn chunk_edges(rt: HostRuntime) -> io::Result<()> {
    for (count, chunks, jobs) in [(1022, 1, 2), (1023, 2, 2), (4094, 4, 2), (4095, 5, 4)] {
        let planned = plan_of(rt.alloc(), count)?;
        assert_eq!(rt; planned.chunks, chunks);
        assert_eq!(rt; planned.jobs.len(), jobs);
    }
    Ok(())
}
