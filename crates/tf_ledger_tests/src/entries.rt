//! That entries can be added, found and undone, with sums counted by hand.

ghost use Rattle.std.specs.Prelude.{◌≡◌, []};

use crate::ledgers::Shown;
use crate::state::assert_state;
use std::process::Abort;
use tf_journal::{Ledger, PlainLedger};
use tf_records::{Account, Refusal, Transfer};

/// An account of ledger 1, as it is stored at timestamp 1.
const CASH: Account = Account {
    id: 1,
    debits_pending: 0,
    debits_posted: 0,
    credits_pending: 0,
    credits_posted: 0,
    user_data_128: 7,
    user_data_64: 8,
    user_data_32: 9,
    reserved: 0,
    ledger: 1,
    code: 10,
    flags: 0,
    timestamp: 1,
};

/// Another, as it is stored at timestamp 2.
const SALES: Account = Account {
    id: 2,
    timestamp: 2,
    ..CASH
};

/// A pending transfer of 40 between them, as it is stored at timestamp 3.
const ORDER: Transfer = Transfer {
    id: 5,
    debit_account_id: 1,
    credit_account_id: 2,
    amount: 40,
    pending_id: 0,
    user_data_128: 0,
    user_data_64: 0,
    user_data_32: 0,
    timeout: 0,
    ledger: 1,
    code: 11,
    flags: 2,
    timestamp: 3,
};

/// Posts 30 of the order's 40.
const POST: Transfer = Transfer {
    id: 8,
    amount: 30,
    pending_id: 5,
    flags: 4,
    timestamp: 6,
    ..ORDER
};

/// After the order.
const ORDERED: &str = "\
accounts shown + id=1 debits_pending=40 user_data_128=7 user_data_64=8 user_data_32=9 ledger=1 code=10 timestamp=1
status 3 open";

/// After the post.
const POSTED: &str = "\
accounts shown + id=2 credits_posted=30 user_data_128=7 user_data_64=8 user_data_32=9 ledger=1 code=10 timestamp=2
status 3 posted";

/// After the failed id.
const FAILED: &str = "\
failed 9
free 12
transfers shown + id=8 debit_account_id=1 credit_account_id=2 amount=30 pending_id=5 ledger=1 code=11 flags=post_pending_transfer timestamp=6";

/// After both were undone.
const UNDONE: &str = "\
accounts shown + id=1 debits_pending=40 user_data_128=7 user_data_64=8 user_data_32=9 ledger=1 code=10 timestamp=1
free 9
free 8
clock 2
length 3";

/// Adds a pending transfer, a post and a failed id to a ledger without entries, and undoes the last two.
fn post_and_undo<L: Ledger + Shown>(
    rt: &(impl Abort + AllocGlobal),
    ledger: &mut L,
) -> Result<(), Refusal>
    requires { L.journal ledger.old ≡ [] }
{
    assert_state(rt, ledger, "clock 0\nlength 0");
    ledger.add_account(CASH)?;
    ledger.add_account(SALES)?;
    ledger.keep(2);
    ledger.add_transfer(ORDER)?;
    assert_state(rt, ledger, ORDERED);
    let before = ledger.mark();
    ledger.add_transfer(POST)?;
    assert_state(rt, ledger, POSTED);
    ledger.add_failed(7, 9)?;
    assert_state(rt, ledger, FAILED);
    ledger.undo(before);
    assert_state(rt, ledger, UNDONE);
    Ok(())
}

#[test]
fn pending_transfer_is_posted_and_undone(rt: HostRuntime) {
    let mut ledger = PlainLedger::new(rt.alloc());
    let done = post_and_undo(&rt, &mut ledger);
    drop(ledger);
    assert!(rt; done.is_ok());
}
