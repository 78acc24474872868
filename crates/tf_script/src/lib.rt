//! The script language: its grammar as a definition over bytes, and a parser proved to be it.
//!
//! A script is bytes. Each byte 0x0A ends a line, and the words of a line are its longest runs of
//! bytes that aren't spaces. A line without words, or whose first word begins with `#`, says nothing.
//!
//! | line | meaning |
//! |---|---|
//! | `accounts NOW` | begins a batch of accounts, up to `end` |
//! | `transfers NOW` | begins a batch of transfers, up to `end` |
//! | `+ FIELD=VALUE ..` | one event, inside a batch alone; fields not named are 0 |
//! | `raw HEX` | one event by its 128 bytes, inside a batch alone |
//! | `end` | ends the batch |
//! | `pulse NOW MAX` | a pulse, which expires at most MAX transfers |
//! | `publish` | a publish |
//! | `compact` | merges each row's tables until none has a merge to do |
//! | `get_account_transfers FIELD=VALUE ..` | the transfers of one account |
//! | `get_account_balances FIELD=VALUE ..` | the balances of one account after its transfers |
//! | `query_accounts FIELD=VALUE ..` | all accounts |
//! | `query_transfers FIELD=VALUE ..` | all transfers |
//! | `lookup_accounts ID ..` | the accounts with these ids; any number of ids, none too |
//! | `lookup_transfers ID ..` | the transfers with these ids; any number of ids, none too |
//!
//! A line has any number of fields, each at most once; a filter's are those of its record but for the reserved
//! bytes. A value is a number in decimal digits or `max`, the greatest of the field's type; `flags` may also be
//! names joined by `|`. NOW is a `u64`, MAX a `u32` and ID a `u128`, each in digits or `max`.
//!
//! In the place of its fields a query may have two words, `raw HEX`: the 128 bytes of the filter of an account's
//! queries, or the 64 of the others' filter. HEX is two hexadecimal digits for each byte, in either case.
#![tactic(auto)]

mod bytes;
mod command;
mod field;
mod format;
mod reading;
mod record;
mod request;
mod script;
mod statement;
mod table;
mod value;
mod verb;
mod word;

pub use command::{Command, Query};
pub use script::parse;
