//! In which ways a script is run.

use std::sync::Wait;
use tf_main::{Ending, run_script_plainly, write_ending};
use tf_served::run_script;

/// By what a script is run, and what is strewn into it.
#[derive(Clone, Copy)]
pub enum Way {
    /// An empty plain ledger.
    PlainLedger,
    /// An empty store.
    Store,
    /// An empty store that publishes before each command.
    PublishingStore,
    /// An empty store that publishes and merges before each command.
    MergingStore,
}

impl Way {
    /// All of them.
    pub const ALL: [Way; 4] = [
        Way::PlainLedger,
        Way::Store,
        Way::PublishingStore,
        Way::MergingStore,
    ];

    /// Its name, as it is printed.
    pub fn name(self) -> &'static str {
        match self {
            Way::PlainLedger => "over the plain ledger",
            Way::Store => "over the store",
            Way::PublishingStore => "over the store with publishes strewn in",
            Way::MergingStore => "over the store with publishes and merges strewn in",
        }
    }

    /// The lines that stand before each command.
    pub fn strewn(self) -> &'static str {
        match self {
            Way::PlainLedger | Way::Store => "",
            Way::PublishingStore => "publish\n",
            Way::MergingStore => "publish\ncompact\n",
        }
    }

    /// What a script writes, with the line of its ending.
    pub fn run<R: AllocGlobal + Wait>(self, rt: &R, script: &[u8]) -> Vec<u8> {
        let mut written = Vec::new(rt.alloc());
        let outcome = match self {
            Way::PlainLedger => run_script_plainly(rt.alloc(), script, &mut written),
            _ => run_script(rt, rt.alloc(), script, &mut written),
        };
        let ending = match outcome {
            Ok(()) => Ending::Done,
            Err(fault) => Ending::Fault(fault),
        };
        let _whole = write_ending(&ending, &mut written);
        written
    }
}
