//! Joins of workers.
ghost use Rattle.std.specs.Prelude.{◌≡◌, ◌+◌, ◌≤◌, vec_capacity, vec_len};

use crate::{Asked, Compacted, Done, Ended, Joined};
use std::alloc::Global;
use std::thread::{JoinHandle, Threads};

/// Keeps what a worker did. Tells whether there was memory for it.
fn keep(done: &mut Vec<Done, Global>, what: Done) -> bool {
    done.push(what).is_ok()
}

/// Joins clients and gives their shares, for which there is room, and what they did.
pub(crate) fn join_clients<H: Drop, J: Drop, R: Threads>(
    rt: &R,
    room: Vec<H, Global>,
    done: Vec<Done, Global>,
    threads: Vec<JoinHandle<Ended<H, J>>, Global>,
) -> Joined<H>
    requires room { (vec_len room ≡ 0) × (vec_len threads ≤ vec_capacity room) }
    ensures { vec_len result.shares ≡ vec_len threads }
{
    let mut shares = room;
    let mut done = done;
    let mut complete = true;
    for thread in threads {
        let Ended {
            share,
            pieces,
            stored,
            seat: _,
            fault,
        } = thread.join(rt);
        complete &= keep(&mut done, Done::Client { pieces, stored }) && fault.is_none();
        shares.push_reserved(share);
    }
    Joined {
        shares,
        done,
        complete,
    }
}

/// Joins compactors, and keeps what they did. Tells whether none met a want of memory.
pub(crate) fn join_compactors<J: Drop, R: Threads>(
    rt: &R,
    done: &mut Vec<Done, Global>,
    threads: Vec<JoinHandle<Compacted<J>>, Global>,
) -> bool {
    let mut complete = true;
    for thread in threads {
        let Compacted {
            jobs,
            installed,
            seat: _,
            fault,
        } = thread.join(rt);
        complete &= keep(done, Done::Compactor { jobs, installed }) && fault.is_none();
    }
    complete
}

/// Joins query workers, and keeps what they did. Tells whether none met a want of memory.
pub(crate) fn join_query_workers<R: Threads>(
    rt: &R,
    done: &mut Vec<Done, Global>,
    threads: Vec<JoinHandle<Asked>, Global>,
) -> bool {
    let mut complete = true;
    for thread in threads {
        let Asked {
            questions,
            rows,
            fault,
        } = thread.join(rt);
        complete &= keep(done, Done::QueryWorker { questions, rows }) && fault.is_none();
    }
    complete
}
