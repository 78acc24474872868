//! Long runs of random calls of every kind: stores, publishes, versions, readers, merges and installs that cross, and memory that is
//! refused at random.

use crate::texts::assert_text;
use std::process::Abort;
use std::sync::Wait;
use tf_text_trials::Fixture;

/// Five hundred calls, and what comes of them.
const SOAK: &str = "\
accounts | publish: 1 | mark
soak 500
publish: any
take | ask taken 0 now: 10";

/// Such runs on a store each.
fn soak<R: Abort + AllocGlobal + Wait>(rt: &R, first: u64, end: u64) {
    for seed in first..end {
        let fixture = Fixture {
            parameter: seed,
            ..Fixture::with_room(1 << 24)
        };
        assert_text(rt, fixture, SOAK);
    }
}

#[test]
fn a_store_answers_thousands_of_crossed_calls_as_the_plain_ledger_does(rt: HostRuntime) {
    soak(&rt, 0, 10);
}

#[test]
fn a_store_answers_thousands_more_as_the_plain_ledger_does(rt: HostRuntime) {
    soak(&rt, 10, 20);
}
