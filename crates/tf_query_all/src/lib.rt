//! Many filters at once.
//!
//! The queries of a version wait for nobody, so filters of all four are shared out among as many threads as there are
//! processors. It is a crate of its own, since a check of what runs in other threads takes longer than one of all queries.
#![tactic(auto)]

ghost use Rattle.std.specs.Prelude.{◌≡◌, IfErr, IfOk};
ghost use Rattle.std.specs.List.{AllZip};
ghost use Rattle.tf_query_all.specs.Many.{IsAnswer};

mod each;
mod filter;

use crate::each::answer_each;
use crate::filter::Asked;
pub use filter::{Answer, Filter};
use std::alloc::Allocator;
use std::marker::{Send, Sync};
use std::thread::Threads;
use tf_query::Version;
use tf_records::Refusal;
use tf_registry::Naming;

/// The answers of filters over a version, in the order of the filters: each is that of the call for its query.
///
/// The filters are shared out among as many threads as there are processors. [`Refusal::NoMemory`] is the only
/// refusal, and leaves no answer. It costs what the calls cost one by one, and memory for the list of answers, which
/// each thread fills in a part of its own.
pub fn query_all<A, N, B, R>(
    rt: &R,
    alloc: B,
    version: &Version<A, N>,
    filters: &[Filter],
) -> Result<Vec<Answer<B>, B>, Refusal>
where
    A: Allocator + Send + Sync,
    N: Naming + Send + Sync,
    B: Allocator + Copy + Send + Sync,
    R: Threads + Sync,
    ensures ok { IfOk result (λ answers. AllZip (IsAnswer version.now) filters.now answers.items) }
    ensures refusal { IfErr result (λ refusal. refusal ≡ Refusal.NoMemory) }
{
    answer_filters(rt, alloc, version, filters)
}

/// The same of anything that answers filters.
fn answer_filters<V, B, R>(
    rt: &R,
    alloc: B,
    asked: &V,
    filters: &[Filter],
) -> Result<Vec<Answer<B>, B>, Refusal>
where
    V: Asked<B> + Sync,
    B: Allocator + Copy + Send + Sync,
    R: Threads + Sync,
    ensures ok { IfOk result (λ answers. AllZip (IsAnswer (V.journal asked.now)) filters.now answers.items) }
    ensures refusal { IfErr result (λ refusal. refusal ≡ Refusal.NoMemory) }
{
    let heap = &alloc;
    answer_each(
        rt,
        alloc,
        filters,
        move |filter: &Filter| -> Result<Answer<B>, Refusal>
            ensures ok { IfOk result (IsAnswer (V.journal asked.entry.now) filter.now) }
            ensures refusal { IfErr result (λ refusal. refusal ≡ Refusal.NoMemory) }
        { asked.answered(*heap, filter) },
    )
}
