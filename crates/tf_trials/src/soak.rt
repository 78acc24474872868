//! Random calls of every kind in a random order, of which some find little of the heap left.
//!
//! What is picked and merged waits while other things are stored, published, merged and installed, so that installs cross.

use crate::attempts::{Attempt, has_acted, has_published, is_as_before, try_out};
use crate::calls::{act, ask, count, is_alike};
use crate::dice::Dice;
use crate::events::{any_batch, one_of_round};
use crate::room::Room;
use crate::trial::Trial;
use crate::tried::{Act, ROWS, Tried, Whom};
use crate::twin::Twin;
use std::alloc::{AllocError, Global};
use tf_records::Refusal;
use tf_script::Command;

/// What a run of calls knows beside its trial. By its number it keeps a version for long, or asks versions and readers for what was
/// published last; and it merges often, or so seldom that rows become full.
#[derive(Drop)]
struct Plan {
    dice: Dice,
    keeps_long: bool,
    merges_often: bool,
    /// Whether a version is kept, which answers as the plain ledger did when it was marked.
    is_kept: bool,
}

impl Plan {
    /// The plan of the run with a number.
    fn new(number: u64) -> Plan {
        Plan {
            dice: Dice::new(number),
            keeps_long: number % 2 == 0,
            merges_often: number % 4 < 2,
            is_kept: false,
        }
    }
}

/// Makes so many random calls, the same for each `M`. Whether each answers as the plain ledger does, or is refused memory or
/// stale and leaves all as it was. Fewer calls find the first that doesn't.
pub fn soak<F: Tried>(store: &mut F, trial: &mut Trial<'_>, calls: u64) -> Result<bool, Refusal> {
    let mut plan = Plan::new(trial.numbers.parameter);
    for call in 0..calls {
        if !is_right(store, &mut trial.twin, &mut trial.room, &mut plan, call)? {
            return Ok(false);
        }
    }
    Ok(!plan.is_kept || let_kept_go(store, &trial.twin))
}

/// Whether a call is right that may find little of the heap left.
fn is_right<F: Tried>(
    store: &mut F,
    twin: &mut Twin,
    room: &mut Room<'_>,
    plan: &mut Plan,
    call: u64,
) -> Result<bool, Refusal> {
    fill_at_random(&mut plan.dice, room)?;
    let is_right = any_call(store, twin, room, plan, call);
    room.free();
    is_right
}

/// Whether a version answers as the plain ledger did when it was marked.
fn answers_then<F: Tried>(store: &mut F, twin: &Twin, whom: Whom) -> bool {
    ask(store, whom, twin.then()).is_right
}

/// The version that is kept is asked once more, and let go.
fn let_kept_go<F: Tried>(store: &mut F, twin: &Twin) -> bool {
    answers_then(store, twin, Whom::Taken(0)) && is_done(store, Act::LetTakenGo)
}

/// Whether something is done.
fn is_done<F: Tried>(store: &mut F, asked: Act) -> bool {
    act(store, asked).is("done")
}

/// Takes most of the heap, once in a while.
fn fill_at_random(dice: &mut Dice, room: &mut Room<'_>) -> Result<(), AllocError> {
    if dice.below(4) != 0 {
        return Ok(());
    }
    let most = 1u64 << dice.below(18);
    room.fill(dice.below(most) as usize)
}

/// A call of any kind.
fn any_call<F: Tried>(
    store: &mut F,
    twin: &mut Twin,
    room: &mut Room<'_>,
    plan: &mut Plan,
    call: u64,
) -> Result<bool, Refusal> {
    let kind = plan.dice.below(16);
    if kind < 6 {
        return run_any(store, twin, room, &mut plan.dice, call);
    }
    if kind == 10 {
        room.free();
    }
    Ok(change_any(store, twin, plan, kind) && is_alike_at_times(store, twin, &mut plan.dice))
}

/// What stores nothing is compared with the plain ledger once in a while. A batch or a pulse is each time.
fn is_alike_at_times<F: Tried>(store: &mut F, twin: &Twin, dice: &mut Dice) -> bool {
    dice.below(4) != 0 || is_alike(store, twin)
}

/// A call that stores nothing, by a number from 6 to 15. Readers have all of the heap.
fn change_any<F: Tried>(store: &mut F, twin: &mut Twin, plan: &mut Plan, kind: u64) -> bool {
    match kind {
        6..9 => publish_any(store, twin, plan.keeps_long),
        9 => take_any(store, twin, plan),
        10 => read_any(store, twin, plan.keeps_long),
        11..15 => merge_any(store, twin, plan),
        _ => acts(store, twin, Act::ShowMerged, false),
    }
}

/// A batch or a pulse, by any share: one of a round, which stores something that nothing stored before, or a random one.
fn run_any<F: Tried>(
    store: &mut F,
    twin: &mut Twin,
    room: &mut Room<'_>,
    dice: &mut Dice,
    call: u64,
) -> Result<bool, Refusal> {
    twin.share = dice.below(64) as usize;
    let command = any_command(twin.alloc, dice, call)?;
    try_out(store, twin, room, Attempt::Run(&command), "any")
}

/// What is run.
fn any_command(alloc: Global, dice: &mut Dice, call: u64) -> Result<Command<Global>, Refusal> {
    if dice.below(3) == 0 {
        one_of_round(alloc, call, 2u64.saturating_sub(dice.below(3)))
    } else {
        let kind = dice.below(8);
        any_batch(alloc, dice, kind)
    }
}

/// A publish. A reader learns of its last receipt.
fn publish_any<F: Tried>(store: &mut F, twin: &mut Twin, keeps_long: bool) -> bool {
    let before = count(store, twin);
    match has_published(store, twin, Some(0), "any") {
        Some(is_right) => {
            if !keeps_long {
                twin.mark();
            }
            is_right
        }
        None => is_as_before(store, twin, Attempt::Publish(None), &before),
    }
}

/// A version is taken and asked, or one that is kept is asked and at times let go.
fn take_any<F: Tried>(store: &mut F, twin: &mut Twin, plan: &mut Plan) -> bool {
    if !plan.is_kept {
        return take(store, twin, plan);
    }
    if plan.dice.below(4) != 0 {
        return answers_then(store, twin, Whom::Taken(0));
    }
    plan.is_kept = false;
    let_kept_go(store, twin)
}

/// A version is taken and asked, and kept if versions are kept for long.
fn take<F: Tried>(store: &mut F, twin: &mut Twin, plan: &mut Plan) -> bool {
    let before = count(store, twin);
    match has_acted(store, Act::Take, "any") {
        Some(true) => {
            twin.mark();
            plan.is_kept = plan.keeps_long;
            answers_then(store, twin, Whom::Taken(0))
                && (plan.keeps_long || is_done(store, Act::LetTakenGo))
        }
        Some(false) => false,
        None => is_as_before(store, twin, Attempt::Act(Act::Take), &before),
    }
}

/// A reader follows and is given a version, which needs no memory. Both answer what was published last.
fn read_any<F: Tried>(store: &mut F, twin: &Twin, keeps_long: bool) -> bool {
    is_done(store, Act::Follow(0))
        && is_done(store, Act::Give(0))
        && (keeps_long
            || answers_then(store, twin, Whom::Held(0))
                && answers_then(store, twin, Whom::Given(0)))
        && is_done(store, Act::LetGivenGo)
}

/// The next run of a row is merged, or what was merged last is installed, be it long ago.
fn merge_any<F: Tried>(store: &mut F, twin: &Twin, plan: &mut Plan) -> bool {
    let most = if plan.merges_often { 1 } else { 12 };
    if plan.dice.below(most) != 0 {
        return true;
    }
    let row = plan.dice.below(ROWS as u64) as usize;
    let kind = plan.dice.below(3);
    (kind == 2 || acts(store, twin, Act::Merge(row), false))
        && (kind == 0 || acts(store, twin, Act::Install, true))
}

/// Something is done, or refused memory. That changes nothing that counts tell, unless it installs and is done. An install may be
/// stale.
fn acts<F: Tried>(store: &mut F, twin: &Twin, asked: Act, installs: bool) -> bool {
    let before = count(store, twin);
    let acted = act(store, asked);
    if installs && acted.is("done") {
        return true;
    }
    (acted.is("any") || acted.is("nothing") || installs && acted.is("stale"))
        && count(store, twin) == before
}
