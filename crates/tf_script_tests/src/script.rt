//! What no contract says: that scripts with each command are read, and where faults are told.

use std::alloc::Allocator;
use tf_records::Refusal;
use tf_script::{Command, parse};

mod commands;
mod faults;

/// The place of a script's first fault, if it has one.
fn fault_of<A: Allocator + Clone>(alloc: A, script: &[u8]) -> Result<Option<(u64, u64)>, Refusal> {
    match parse(alloc, script) {
        Ok(_) => Ok(None),
        Err(Refusal::BadLine { line, column }) => Ok(Some((line, column))),
        Err(refusal) => Err(refusal),
    }
}

/// The command of a script that has one alone.
fn only_command<A: Allocator + Clone>(
    alloc: A,
    script: &[u8],
) -> Result<Option<Command<A>>, Refusal> {
    let mut commands = parse(alloc, script)?;
    let command = commands.pop();
    Ok(if commands.is_empty() { command } else { None })
}

/// A script with every command.
const WHOLE: &str = "# every command
accounts 1000
+ id=1 debits_pending=2 debits_posted=3 credits_pending=4 credits_posted=5 user_data_128=6
+ user_data_64=7 user_data_32=8 reserved=9 ledger=10 code=11 flags=history|linked timestamp=12
raw 010000000000000000000000000000000200000000000000000000000000000003000000000000000000000000000000040000000000000000000000000000000500000000000000000000000000000006000000000000000000000000000000070000000000000008000000090000000a0000000b000c000d00000000000000
end
transfers max
+ id=1 debit_account_id=2 credit_account_id=3 amount=max pending_id=5 user_data_128=6 user_data_64=max
+ user_data_32=max timeout=8 ledger=max code=max flags=pending|closing_credit timestamp=12
+ flags=max timestamp=max
raw A0000000000000000000000000000000a1000000000000000000000000000000a2000000000000000000000000000000A3000000000000000000000000000000a4000000000000000000000000000000a5000000000000000000000000000000A600000000000000a7000000A8000000a9000000aa00aB00Ac00000000000000
end
pulse 20 30
publish
compact
get_account_transfers account_id=1 flags=credits
get_account_balances raw 010000000000000000000000000000000200000000000000000000000000000003000000000000000400000005000000000000000000000000000000000000000000000000000000000000000000000000000000000000000000000000000000000000000000000607000000000000000800000000000000090000000a000000
query_accounts ledger=700
query_transfers raw 010000000000000000000000000000000200000000000000030000000400000005000000000000060700000000000000080000000000000009000000efcdab00
lookup_accounts 1 max
lookup_transfers
";
