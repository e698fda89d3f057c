//! The kinds of call of a host, and which of them are to fail.
ghost use Rattle.std.specs.Prelude.{◌≡◌, ◌+◌, ◌-◌, ◌^◌, ◌↔◌, min, IsTrue, Contains};
ghost use Rattle.std.specs.Bool.{OnTrue};
ghost use Rattle.host_io.specs.Memory.{calls_of, after_call, one_more};

/// A kind of call of a host.
#[derive(Clone, Copy, Debug, PartialEq, Eq)]
pub enum HostCall {
    Open,
    Read,
    Create,
    Write,
    Report,
}

/// How often each kind of call was made; a number at its last value stays.
#[derive(Clone, Copy, Debug)]
pub struct CallCounts {
    pub open_calls: u64,
    pub read_calls: u64,
    pub create_calls: u64,
    pub write_calls: u64,
    pub report_calls: u64,
}

/// Counts a call of this kind, and says whether the list lets it fail.
pub fn begin_call(failing: &[(HostCall, u64)], counts: &mut CallCounts, call: HostCall) -> bool
    ensures listed { IsTrue result ↔ Contains failing.now (call, calls_of counts.old call) }
    ensures counted { counts.new ≡ after_call counts.old call }
{
    let number = next_number(counts, call);
    failing.contains(&(call, number))
}

fn next_number(counts: &mut CallCounts, call: HostCall) -> u64
    ensures number { result ≡ calls_of counts.old call }
    ensures counted { counts.new ≡ after_call counts.old call }
{
    match call {
        HostCall::Open => next_of(&mut counts.open_calls),
        HostCall::Read => next_of(&mut counts.read_calls),
        HostCall::Create => next_of(&mut counts.create_calls),
        HostCall::Write => next_of(&mut counts.write_calls),
        HostCall::Report => next_of(&mut counts.report_calls),
    }
}

// The number, which is one more afterwards.
fn next_of(count: &mut u64) -> u64
    ensures number { result ≡ count.old }
    ensures counted { count.new ≡ one_more count.old }
{
    let number = *count;
    *count = number.saturating_add(1);
    number
}
