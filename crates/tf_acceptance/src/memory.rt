//! What publishes and compactions of a script do with memory: nothing that it prints tells whether they did anything.

use crate::spelling::spelled_out;
use linked_list_allocator::LocalHeap;
use std::process::Abort;
use std::sync::Wait;
use std::test::Fail;
use tf_served::run_script;

/// How many blocks of 16 KB a script needs to be answered over a store, 256 where that is too few.
fn blocks_needed<R: Abort + AllocGlobal + Wait>(rt: &R, short: &str) -> Result<usize, Fail> {
    let script = spelled_out(rt.alloc(), short)?;
    for blocks in 1..256usize {
        let heap = LocalHeap::new(rt.alloc(), blocks << 14)?;
        let mut out = Vec::new(rt.alloc());
        if run_script(rt, &heap, script.as_bytes(), &mut out).is_ok() {
            return Ok(blocks);
        }
    }
    Ok(256)
}

/// A script needs fewer blocks than another, which is answered as well.
fn assert_needs_less<R: Abort + AllocGlobal + Wait>(
    rt: &R,
    short: &str,
    other: &str,
) -> Result<(), Fail> {
    let needed = blocks_needed(rt, short)?;
    let more = blocks_needed(rt, other)?;
    assert!(rt; needed < more && more < 256);
    Ok(())
}

/// What is published is sealed: 500 transfers stand in tables beside their entries for a moment.
#[test]
fn a_publish_of_a_script_seals(rt: HostRuntime) -> Result<(), Fail> {
    const STORED: &str = "\
accounts 0
@events 1 2 0 ledger=700 code=10
end
@batches transfers 1 500 0 debit_account_id=1 credit_account_id=2 amount=1 ledger=700 code=1
pulse 0 0";
    const PUBLISHED: &str = "\
accounts 0
@events 1 2 0 ledger=700 code=10
end
@batches transfers 1 500 0 debit_account_id=1 credit_account_id=2 amount=1 ledger=700 code=1
publish";
    assert_needs_less(&rt, STORED, PUBLISHED)
}

/// A compaction behind each publish merges what that sealed.
#[test]
fn a_compaction_of_a_script_merges(rt: HostRuntime) -> Result<(), Fail> {
    const COMPACTED: &str = "\
accounts 0
@events 1 2 0 ledger=700 code=10
end
@batches transfers 1 50 0 debit_account_id=1 credit_account_id=2 amount=1 ledger=700 code=1 flags=pending timeout=1
@times 50 pulse 9000000000 1; publish; compact";
    const PUBLISHED: &str = "\
accounts 0
@events 1 2 0 ledger=700 code=10
end
@batches transfers 1 50 0 debit_account_id=1 credit_account_id=2 amount=1 ledger=700 code=1 flags=pending timeout=1
@times 50 pulse 9000000000 1; publish; publish";
    assert_needs_less(&rt, COMPACTED, PUBLISHED)
}
