//! The ends of listings that the example on standard input does not have.
use super::listing;
use sample::POP;
use std::alloc::Global;
use std::process::Abort;
use std::test::Fail;

/// The listing of a schedule ends with this text.
fn ends(rt: &impl Abort, heap: Global, bytes: &[u8], text: &str) -> Result<(), Fail> {
    assert!(rt; listing(heap, bytes)?.as_str().ends_with(text));
    Ok(())
}

#[test]
fn a_refused_job_ends_with_boots_fault(rt: HostRuntime) -> Result<(), Fail> {
    let mut bytes = POP;
    bytes[101] = 0x60;
    let text =
        "word 4260 22\nfault 23 236\nthat is: the job is refused\nby boot: refusal 7 of the descriptor at 88: the word before a descriptor's abort is not the signature\n";
    ends(&rt, rt.alloc(), &bytes, text)
}

#[test]
fn calls_before_a_fault_are_listed(rt: HostRuntime) -> Result<(), Fail> {
    let mut bytes = POP;
    bytes[236..].copy_from_slice(b"g\x00\x09\x00\x00r\x00i\x05x\x09");
    let calls =
        "call 1 at 236 signal thread 0 operation kind 9 counter 0 amount 0\ncall 2 at 241 run cpu 0\ncall 3 at 243 idle cpu 5\nfault 22 245\nthat is: no job and no call begins with this letter\n";
    ends(&rt, rt.alloc(), &bytes, calls)
}

#[test]
fn a_header_is_listed_as_far_as_it_goes(rt: HostRuntime) -> Result<(), Fail> {
    ends(
        &rt,
        rt.alloc(),
        &POP[0..6],
        "nodes 2\nfault 20 6\nthat is: the schedule ends inside a part of it, or is too long\n",
    )?;
    ends(
        &rt,
        rt.alloc(),
        b"K",
        "fault 22 0\nthat is: no job and no call begins with this letter\n",
    )
}
