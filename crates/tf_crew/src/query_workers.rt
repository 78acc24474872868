//! Query workers.
ghost use Rattle.std.specs.Prelude.{◌≡◌, IfSome};

use crate::{Answered, Asked, Gate};
use tf_records::Refusal;

/// Asks a reader so many questions, each by a call of `ask` with the worker's number and that of the question, counted from 0, and
/// counts the rows of the answers. It ends early only for want of memory. It waits for nobody, unless `ask` does.
pub fn query_worker_by<Q, F, G>(
    ask: &F,
    reader: Q,
    questions: usize,
    worker: u32,
    gate: &G,
) -> Asked
where
    Q: Drop,
    F: Fn(u32, usize, Q) -> Answered<Q>,
    G: Gate,
    requires { F.IsAlwaysCallable ask.now }
    ensures { IfSome result.fault (λ fault. fault ≡ Refusal.NoMemory) }
{
    let mut reader = reader;
    let mut asked = 0u64;
    let mut rows = 0u64;
    let mut call = 0u32;
    for question in 0..questions {
        gate.before(worker, call);
        let Answered {
            reader: back,
            rows: found,
        } = ask(worker, question, reader);
        reader = back;
        gate.after(worker, call);
        call = call.saturating_add(1);
        match found {
            Ok(more) => {
                asked = asked.saturating_add(1);
                rows = rows.saturating_add(more);
            }
            Err(_) => {
                return Asked {
                    questions: asked,
                    rows,
                    fault: Some(Refusal::NoMemory),
                };
            }
        }
    }
    Asked {
        questions: asked,
        rows,
        fault: None,
    }
}
