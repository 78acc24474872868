//! Refusals and replies.

use std::alloc::{AllocError, AllocFailed};
use std::test::Fail;
use tf_records::{Failure, Outcome, Refusal, Reply};

const REFUSALS: [Refusal; 7] = [
    Refusal::NoMemory,
    Refusal::BatchTooLarge,
    Refusal::ClockExhausted,
    Refusal::Stale,
    Refusal::RegistryFull,
    Refusal::BadLine { line: 2, column: 8 },
    Refusal::BadRecord { length: 127 },
];

/// Their texts, in the same order.
const TEXTS: &str = "\
no memory
batch_too_large
clock_exhausted
stale
registry_full
bad line 2 column 8
bad record of 127 bytes";

#[test]
fn refusals_have_their_texts(rt: HostRuntime) -> Result<(), Fail> {
    for (refusal, text) in REFUSALS.iter().zip(TEXTS.lines()) {
        let printed = refusal.to_string(rt.alloc())?;
        assert!(rt; printed.as_str() == text);
    }
    assert!(rt; TEXTS.lines().count() == REFUSALS.len());
    Ok(())
}

#[test]
fn a_refused_growth_is_no_memory(rt: HostRuntime) {
    assert!(rt; Refusal::from(AllocError) == Refusal::NoMemory);
    assert!(rt; Refusal::from(AllocFailed { value: 7u8 }) == Refusal::NoMemory);
}

#[test]
fn a_reply_keeps_its_failures(rt: HostRuntime) -> Result<(), Fail> {
    let empty = Reply::new(rt.alloc());
    assert!(rt; empty.is_empty() && empty.len() == 0);
    let failures = [
        Failure {
            index: 0,
            outcome: Outcome::Exists,
        },
        Failure {
            index: 7,
            outcome: Outcome::LinkedEventFailed,
        },
    ];
    let reply = Reply::from_vec(Vec::from_array(rt.alloc(), failures)?);
    assert!(rt; !reply.is_empty() && reply.len() == 2);
    assert!(rt; reply.as_slice() == failures.as_slice());
    assert!(rt; reply.into_vec().as_slice() == failures.as_slice());
    Ok(())
}
