//! Questions that are shared out among threads. It knows no version and no filter, so that a check of what runs in other threads
//! takes none of those types apart.
ghost use Rattle.std.specs.Prelude.{◌≡◌, Err, IfErr, IfOk};
ghost use Rattle.tf_query_all.specs.Many.{AreAnswered};

use rayon::prelude::*;
use std::alloc::{AllocError, Allocator};
use std::thread::Threads;
use tf_records::Refusal;

/// What is answered to each question, in the order of the questions, by as many threads as there are processors. `NoMemory` is the
/// only refusal.
pub(crate) fn answer_each<Q, Y, B, R, F>(
    rt: &R,
    alloc: B,
    questions: &[Q],
    answer: F,
) -> Result<Vec<Y, B>, Refusal>
where
    Q: Sync,
    Y: Drop + Send,
    B: Allocator + Copy + Send + Sync,
    R: Threads + Sync,
    F: Fn(&Q) -> Result<Y, Refusal> + Copy + Send + Sync,
    requires calls { F.IsAlwaysCallable answer }
    requires refusals { (question : _) (refusal : _) → F.post answer question (Err refusal) → refusal ≡ Refusal.NoMemory }
    ensures ok { IfOk result (λ answers. AreAnswered (F.post answer) questions.now answers.items) }
    ensures refusal { IfErr result (λ refusal. refusal ≡ Refusal.NoMemory) }
{
    let collected: Result<Result<Vec<Y, B>, Refusal>, AllocError> = questions
        .par_iter()
        .map(answer)
        .collect(rt, alloc);
    match collected {
        Ok(answers) => answers,
        Err(_) => Err(Refusal::NoMemory),
    }
}
