//! Plans by hand.
use super::*;
use std::process::Abort;
use std::test::*;
use zk_layout::Air;

/// A job by its air, its instance and each part's chunk, skip and take.
type Expected<'a> = (Air, u32, &'a [(u32, u32, u32)]);

fn assert_parts(rt: &impl Abort, parts: &[Part], expected: &[(u32, u32, u32)]) {
    assert_eq!(rt; parts.len(), expected.len());
    for (part, (chunk, skip, take)) in parts.iter().zip(expected) {
        assert_eq!(rt; part.chunk, *chunk);
        assert_eq!(rt; part.skip, *skip);
        assert_eq!(rt; part.take, *take);
    }
}

fn assert_jobs(rt: &impl Abort, jobs: &[Job], expected: &[Expected]) {
    assert_eq!(rt; jobs.len(), expected.len());
    for (job, (air, instance, parts)) in jobs.iter().zip(expected) {
        assert_eq!(rt; job.air, *air);
        assert_eq!(rt; job.instance, *instance);
        assert_parts(rt, job.parts.as_slice(), parts);
    }
}

/// 424 of 1,024 steps are Binary's, and 600 Shift's.
const MIXED: Counts = Counts {
    steps: 1024,
    binary: 424,
    shift: 600,
    arith: 0,
    align: 0,
};

/// Each of 1,024 steps is Binary's.
const SUMS: Counts = Counts {
    steps: 1024,
    binary: 1024,
    shift: 0,
    arith: 0,
    align: 0,
};

const ONE_SUM: Counts = Counts {
    steps: 1,
    binary: 1,
    shift: 0,
    arith: 0,
    align: 0,
};

const FIRST_SHIFTS: Expected = (Air::Shift, 0, &[(0, 0, 600), (1, 0, 424)]);

#[test]
fn jobs_of_two_chunks(rt: HostRuntime) -> Result<(), Fail> {
    let mut plan = Plan::new(rt.alloc());
    assert_jobs(&rt, &plan.add(&MIXED)?, &[]);
    assert_jobs(&rt, &plan.add(&MIXED)?, &[FIRST_SHIFTS]);
    let left: [Expected; 3] = [
        (Air::Main, 0, &[(0, 0, 1024), (1, 0, 1024)]),
        (Air::Binary, 0, &[(0, 0, 424), (1, 0, 424)]),
        (Air::Shift, 1, &[(1, 424, 176)]),
    ];
    assert_jobs(&rt, &plan.finish()?, &left);
    Ok(())
}

/// 4,095 sums, then two more steps with a sum each.
#[test]
fn jobs_of_five_chunks(rt: HostRuntime) -> Result<(), Fail> {
    let mut plan = Plan::new(rt.alloc());
    assert_jobs(&rt, &plan.add(&SUMS)?, &[]);
    assert_jobs(&rt, &plan.add(&SUMS)?, &[]);
    assert_jobs(&rt, &plan.add(&SUMS)?, &[]);
    let four: [(u32, u32, u32); 4] = [(0, 0, 1024), (1, 0, 1024), (2, 0, 1024), (3, 0, 1024)];
    let whole: [Expected; 2] = [(Air::Main, 0, &four), (Air::Binary, 0, &four)];
    assert_jobs(&rt, &plan.add(&SUMS)?, &whole);
    assert_jobs(&rt, &plan.add(&ONE_SUM)?, &[]);
    let left: [Expected; 2] = [(Air::Main, 1, &[(4, 0, 1)]), (Air::Binary, 1, &[(4, 0, 1)])];
    assert_jobs(&rt, &plan.finish()?, &left);
    Ok(())
}

#[test]
fn plan_used_again(rt: HostRuntime) -> Result<(), Fail> {
    let mut plan = Plan::new(rt.alloc());
    assert_jobs(&rt, &plan.finish()?, &[]);
    assert_jobs(&rt, &plan.add(&ONE_SUM)?, &[]);
    let left: [Expected; 2] = [(Air::Main, 0, &[(0, 0, 1)]), (Air::Binary, 0, &[(0, 0, 1)])];
    assert_jobs(&rt, &plan.finish()?, &left);
    assert_jobs(&rt, &plan.finish()?, &[]);
    assert_jobs(&rt, &plan.add(&MIXED)?, &[]);
    assert_jobs(&rt, &plan.add(&MIXED)?, &[FIRST_SHIFTS]);
    Ok(())
}

/// With no shift in the chunks between, the parts stand in chunks 0 and 3; the shifts that are left in chunk 3 are the next
/// instance's, and a chunk whose shifts fill an instance exactly leaves none.
#[test]
fn chunks_without_rows(rt: HostRuntime) -> Result<(), Fail> {
    let mut plan = Plan::new(rt.alloc());
    assert_jobs(&rt, &plan.add(&MIXED)?, &[]);
    assert_jobs(&rt, &plan.add(&ONE_SUM)?, &[]);
    assert_jobs(&rt, &plan.add(&ONE_SUM)?, &[]);
    let first: [Expected; 1] = [(Air::Shift, 0, &[(0, 0, 600), (3, 0, 424)])];
    assert_jobs(&rt, &plan.add(&MIXED)?, &first);
    let shifts = Counts {
        shift: 848,
        binary: 0,
        ..MIXED
    };
    let second: [Expected; 1] = [(Air::Shift, 1, &[(3, 424, 176), (4, 0, 848)])];
    assert_jobs(&rt, &plan.add(&shifts)?, &second);
    let left = plan.finish()?;
    assert!(rt; left.iter().all(|job| job.air != Air::Shift));
    Ok(())
}
