//! Crews of which a worker is refused memory.
ghost use Rattle.std.specs.Prelude.{◌≡◌, vec_len, IfOk};

use std::alloc::{AllocError, Global};
use std::marker::Sync;
use std::sync::Wait;
use std::test::Fail;
use std::thread::Threads;
use tf_crew::{Answered, OpenGate, Section, WantOfMemory, run_crew};

/// Who is refused memory.
#[derive(Clone, Copy, PartialEq, Eq)]
enum Refused {
    Nobody,
    /// The second client, at its second piece.
    Client,
    /// A compactor, at the first job of the second client.
    Compactor,
    /// The first query worker, at its second question.
    QueryWorker,
}

/// So many lists of four nothings each.
fn lists(alloc: Global, count: usize) -> Result<Vec<Vec<()>, Global>, AllocError>
    ensures { IfOk result (λ lists. vec_len lists ≡ count) }
{
    let mut lists = Vec::new(alloc);
    for _place in 0..count {
        lists.push([(); 4].as_slice().to_vec(alloc)?)?;
    }
    Ok(lists)
}

/// So many numbers, each 0.
fn zeros(alloc: Global, count: usize) -> Result<Vec<u64, Global>, AllocError>
    ensures { IfOk result (λ zeros. vec_len zeros ≡ count) }
{
    let mut zeros = Vec::new(alloc);
    for _place in 0..count {
        zeros.push(0)?;
    }
    Ok(zeros)
}

/// One job, of the number of the client and that of the piece.
fn one_job(alloc: Global, job: (u32, usize)) -> Result<Vec<(u32, usize), Global>, WantOfMemory> {
    let mut jobs = Vec::with_capacity(alloc, 1)?;
    match jobs.push(job) {
        Ok(()) => Ok(jobs),
        Err(_) => Err(WantOfMemory),
    }
}

/// The sum of the shares of three clients with four pieces each, which count one for each piece, and whether the crew is complete.
fn run<R>(rt: &R, alloc: Global, refused: Refused) -> Result<(u64, bool), Fail>
where
    R: Wait + Threads + Sync,
{
    let work = |client: u32, piece: usize, share: u64| {
        let jobs = if refused == Refused::Client && client == 1 && piece == 1 {
            Err(WantOfMemory)
        } else {
            one_job(alloc, (client, piece))
        };
        Section {
            share: share.saturating_add(1),
            stored: 1,
            jobs,
        }
    };
    let merge = |job: (u32, usize)| {
        if refused == Refused::Compactor && job == (1, 0) {
            Err(WantOfMemory)
        } else {
            Ok(true)
        }
    };
    let ask = |worker: u32, question: usize, reader: u64| {
        let rows = if refused == Refused::QueryWorker && worker == 3 && question == 1 {
            Err(WantOfMemory)
        } else {
            Ok(1)
        };
        Answered { reader, rows }
    };
    let scripts = lists(alloc, 3)?;
    let asks = lists(alloc, 2)?;
    let joined = run_crew(
        rt,
        alloc,
        &work,
        &merge,
        &ask,
        zeros(alloc, 3)?,
        zeros(alloc, 2)?,
        scripts.as_slice(),
        asks.as_slice(),
        &OpenGate,
    );
    match joined {
        Ok(joined) => Ok((sum(joined.shares.as_slice()), joined.complete)),
        Err(_) => Err(Fail::new("a crew had no memory or no thread")),
    }
}

/// The sum of numbers.
fn sum(numbers: &[u64]) -> u64 {
    let mut sum = 0u64;
    for number in numbers {
        sum = sum.saturating_add(*number);
    }
    sum
}

#[test]
fn a_crew_is_incomplete_where_a_worker_is_refused_memory(rt: HostRuntime) -> Result<(), Fail> {
    assert!(rt; run(&rt, rt.alloc(), Refused::Nobody)? == (12, true));
    assert!(rt; run(&rt, rt.alloc(), Refused::Client)? == (10, false));
    assert!(rt; run(&rt, rt.alloc(), Refused::Compactor)? == (12, false));
    assert!(rt; run(&rt, rt.alloc(), Refused::QueryWorker)? == (12, false));
    Ok(())
}
