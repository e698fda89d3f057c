//! What the program asks of the outside: files by name and a report.
//! A trait says what a host means; one host keeps all in memory, the other is the real system.
#![tactic(auto)]

mod call;
mod files;
mod host;
mod mem_host;
mod os_host;
mod reading;
mod sink;
mod slots;
mod writing;

pub use call::HostCall;
pub use host::{Host, HostErr, Slot};
pub use mem_host::MemHost;
pub use os_host::OsHost;
pub use reading::{ReadErr, read_all, read_into};
pub use sink::Sink;
pub use writing::{WriteErr, report_all, write_all};

#[cfg(test)]
mod os_host_tests;

#[cfg(test)]
mod tests {
    use super::*;
    use std::fs;
    use std::test::Fail;

    #[test]
    fn a_real_file_is_written_and_read(rt: HostRuntime) -> Result<(), Fail> {
        let mut host = OsHost::new(rt.alloc(), &rt);
        let target = host.create("host_io_real_file")?;
        write_all(&mut host, target, b"some bytes")?;
        let source = host.open("host_io_real_file")?;
        let bytes = read_all(rt.alloc(), &mut host, source, 10)?;
        fs::remove_file(&rt, "host_io_real_file")?;
        assert_eq!(rt; bytes.as_slice(), b"some bytes".as_slice());
        assert!(rt; host.open("host_io_real_file") == Err(HostErr::Failed));
        Ok(())
    }

    #[test]
    fn a_failing_write_leaves_a_front(rt: HostRuntime) -> Result<(), Fail> {
        let alloc = rt.alloc();
        let failing = vec![in alloc; (HostCall::Write, 2)]?;
        let mut host = MemHost::new(alloc, Vec::new(alloc), 3, failing);
        let slot = host.create("tables")?;
        assert!(rt; write_all(&mut host, slot, b"0123456789") == Err(WriteErr::WriteFault));
        assert_eq!(rt;
            host.written("tables").ok_or("created")?,
            b"012345".as_slice()
        );
        assert!(rt; host.written("other").is_none());
        Ok(())
    }

    #[test]
    fn a_file_in_memory_is_read_and_reported(rt: HostRuntime) -> Result<(), Fail> {
        let alloc = rt.alloc();
        let name = String::from_str(alloc, "input")?;
        let bytes = Vec::from_slice(alloc, b"0123456789")?;
        let mut host = MemHost::new(alloc, vec![in alloc; (name, bytes)]?, 4, Vec::new(alloc));
        let slot = host.open("input")?;
        let all = read_all(alloc, &mut host, slot, 10)?;
        report_all(&mut host, &all)?;
        assert_eq!(rt; host.reported(), b"0123456789".as_slice());
        let again = host.open("input")?;
        assert!(rt; read_all(alloc, &mut host, again, 9) == Err(ReadErr::TooLarge));
        Ok(())
    }
}
