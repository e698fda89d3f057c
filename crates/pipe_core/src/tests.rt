//! A core of capacity 1.
use super::*;
use std::test::*;
use zk_layout::Air;

const JOB: JobId = JobId {
    air: Air::Main,
    instance: 0,
};

#[test]
fn core_of_one(rt: HostRuntime) -> Result<(), Fail> {
    let push = Event::Push {
        pass: 0,
        ticket: CoreTicket::Work(JOB),
    };
    let mut core = Core::new(rt.alloc(), 1)?;
    assert_eq!(rt; core.apply(&push), Ok(()));
    assert_eq!(rt; core.apply(&push), Err(EventErr::Full));
    assert!(rt; core.kept(1).is_none());
    assert_eq!(rt; core.apply(&Event::Split { pass: 0 }), Ok(()));
    assert!(rt; core.kept(1).is_some());
    assert_eq!(rt; core.apply(&Event::Pop { pass: 1 }), Ok(()));
    assert_eq!(rt; core.apply(&Event::Pop { pass: 0 }), Err(EventErr::Empty));
    assert_eq!(rt; core.apply(&Event::Keep { pass: 1 }), Ok(()));
    assert_eq!(rt;
        core.apply(&Event::Keep { pass: 1 }),
        Err(EventErr::HoldsNone(1))
    );
    assert_eq!(rt; core.apply(&Event::Join { into: 0, from: 1 }), Ok(()));
    assert_eq!(rt; core.kept(0), Some([JOB].as_slice()));
    assert!(rt; core.kept(1).is_none());
    Ok(())
}
