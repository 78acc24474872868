//! Gates.

use std::sync::atomic::{AtomicBool, AtomicU64, Ordering};
use std::thread;
use tf_workers::Gate;

/// How often a worker turns at a gate before that lets it go.
const TURNS: u32 = 100_000_000;

/// A gate that counts how often it was called before and after a call.
#[derive(Drop)]
pub struct CountingGate {
    before: AtomicU64,
    after: AtomicU64,
}

impl CountingGate {
    /// A gate that wasn't called.
    pub fn new() -> CountingGate {
        CountingGate {
            before: AtomicU64::new(0),
            after: AtomicU64::new(0),
        }
    }

    /// How often it was called before a call, and how often after one.
    pub fn calls(&self) -> (u64, u64) {
        (
            self.before.load(Ordering::SeqCst),
            self.after.load(Ordering::SeqCst),
        )
    }
}

impl Gate for CountingGate {
    fn before(&self, _worker: u32, _call: u32) {
        self.before.fetch_add(1, Ordering::SeqCst);
    }

    fn after(&self, _worker: u32, _call: u32) {
        self.after.fetch_add(1, Ordering::SeqCst);
    }
}

/// A gate at which workers meet, each turning until it sees the others there, or one that is open.
///
/// In a storm of four clients and two query workers, call 0 of the first two clients and of the first query worker are together, and
/// call 5 of the first client is with call 0 of a compactor.
#[derive(Drop)]
pub struct Meetings {
    is_open: bool,
    first_client: AtomicBool,
    second_client: AtomicBool,
    query_worker: AtomicBool,
    last_batch: AtomicBool,
    compactor: AtomicBool,
    /// Whether a worker was let go before the others came.
    missed: AtomicBool,
}

impl Meetings {
    /// A gate to which nobody has come.
    pub fn new(is_open: bool) -> Meetings {
        Meetings {
            is_open,
            first_client: AtomicBool::new(false),
            second_client: AtomicBool::new(false),
            query_worker: AtomicBool::new(false),
            last_batch: AtomicBool::new(false),
            compactor: AtomicBool::new(false),
            missed: AtomicBool::new(false),
        }
    }

    /// Whether all came, and none was let go before.
    pub fn have_met(&self) -> bool {
        !has_come(&self.missed)
            && has_come(&self.first_client)
            && has_come(&self.second_client)
            && has_come(&self.query_worker)
            && has_come(&self.last_batch)
            && has_come(&self.compactor)
    }

    /// Comes, and turns until both others have come. Once a worker was let go, all are.
    fn meet(&self, own: &AtomicBool, other: &AtomicBool, third: &AtomicBool) {
        own.store(true, Ordering::SeqCst);
        for _turn in 0..TURNS {
            if has_come(other) && has_come(third) || has_come(&self.missed) {
                return;
            }
            thread::yield_now();
        }
        self.missed.store(true, Ordering::SeqCst);
    }
}

/// Whether a worker has come.
fn has_come(worker: &AtomicBool) -> bool {
    worker.load(Ordering::SeqCst)
}

impl Gate for Meetings {
    fn before(&self, worker: u32, call: u32) {
        if self.is_open {
            return;
        }
        match (worker, call) {
            (0, 0) => self.meet(&self.first_client, &self.second_client, &self.query_worker),
            (1, 0) => self.meet(&self.second_client, &self.first_client, &self.query_worker),
            (4, 0) => self.meet(&self.query_worker, &self.first_client, &self.second_client),
            (0, 5) => self.meet(&self.last_batch, &self.compactor, &self.compactor),
            (6 | 7, 0) => self.meet(&self.compactor, &self.last_batch, &self.last_batch),
            _ => {}
        }
    }

    fn after(&self, _worker: u32, _call: u32) {}
}
