//! A host that stands round another host and shows how many bytes went through it.
#![tactic(auto)]

mod meter;
mod progress_host;

pub use progress_host::ProgressHost;

#[cfg(test)]
mod tests {
    use super::ProgressHost;
    use host_io::{Host, MemHost, read_all, report_all};
    use std::test::Fail;

    #[test]
    fn what_the_inner_host_reads_and_reports_is_the_same(rt: HostRuntime) -> Result<(), Fail> {
        let alloc = rt.alloc();
        let name = String::from_str(alloc, "input")?;
        let bytes = Vec::from_slice(alloc, b"0123456789")?;
        let inner = MemHost::new(alloc, vec![in alloc; (name, bytes)]?, 4, Vec::new(alloc));
        let mut host = ProgressHost::new(inner, rt.stderr());
        let slot = host.open("input")?;
        let all = read_all(alloc, &mut host, slot, 10)?;
        report_all(&mut host, &all)?;
        host.end();
        assert_eq!(rt; all.as_slice(), b"0123456789".as_slice());
        assert_eq!(rt; host.inner().reported(), b"0123456789".as_slice());
        Ok(())
    }
}
