//! Gates: what a test has to say in the order in which workers go.

/// What is called outside the lock round each call of a worker, which counts its calls from 0. A call after number 2^32 - 1 has that
/// number too.
///
/// A client's call is one critical section, a query worker's what it is asked once, a compactor's one job.
pub trait Gate {
    /// Comes before the call of this number.
    fn before(&self, worker: u32, call: u32);

    /// Comes after it.
    fn after(&self, worker: u32, call: u32);
}

/// A gate that does nothing.
#[derive(Clone, Copy)]
pub struct OpenGate;

impl Gate for OpenGate {
    fn before(&self, _worker: u32, _call: u32) {}

    fn after(&self, _worker: u32, _call: u32) {}
}
