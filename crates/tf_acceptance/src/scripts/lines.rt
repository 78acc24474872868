//! Commands as lines of scripts.

use std::alloc::{AllocError, Allocator};
use tf_records::{Account, Transfer};
use tf_script::Command;

/// The digits of bytes.
const DIGITS: [&str; 16] = [
    "0", "1", "2", "3", "4", "5", "6", "7", "8", "9", "a", "b", "c", "d", "e", "f",
];

/// Adds a record as an event, by its bytes.
fn push_record(script: &mut String, bytes: &[u8]) -> Result<(), AllocError> {
    script.push_str("raw ")?;
    for byte in bytes {
        script.push_str(DIGITS[(*byte >> 4) as usize])?;
        script.push_str(DIGITS[(*byte & 15) as usize])?;
    }
    script.push_str("\n")
}

fn push_accounts(script: &mut String, events: &[Account]) -> Result<(), AllocError> {
    for event in events {
        push_record(script, &event.to_bytes())?;
    }
    script.push_str("end\n")
}

fn push_transfers(script: &mut String, events: &[Transfer]) -> Result<(), AllocError> {
    for event in events {
        push_record(script, &event.to_bytes())?;
    }
    script.push_str("end\n")
}

/// Adds the lines of a batch or a pulse. Other commands have none.
pub fn push_command<A: Allocator>(
    rt: &impl AllocGlobal,
    script: &mut String,
    command: &Command<A>,
) -> Result<(), AllocError> {
    match command {
        Command::Accounts { now, events } => {
            script.push_str(format!(in rt.alloc(); "accounts {now}\n")?.as_str())?;
            push_accounts(script, events.as_slice())
        }
        Command::Transfers { now, events } => {
            script.push_str(format!(in rt.alloc(); "transfers {now}\n")?.as_str())?;
            push_transfers(script, events.as_slice())
        }
        Command::Pulse { now, max } => {
            script.push_str(format!(in rt.alloc(); "pulse {now} {max}\n")?.as_str())
        }
        _ => Ok(()),
    }
}
