//! Versions: each shows the journal of its store when it was taken, whatever happens later.

use crate::texts::assert_text;
use tf_text_trials::Fixture;

/// A version stays what it was through five rounds and a compaction. Receipts wait for a publish. Once readers are shown merged
/// tables the version alone owns those that it has, which come back when it is let go.
const STAYS: &str = "\
accounts | mark
take | ask taken 0 then: 10
publish: 1
repeat 0 5 round N | publish: 2 | ask taken 0 then: 10
run compact
ask taken 0 then: 10
take | ask taken 1 now: 100 | let_taken
show | note | let_taken | freed: 44000 | let_taken: nothing";

#[test]
fn a_version_stays_whatever_happens_to_its_store(rt: HostRuntime) {
    assert_text(&rt, Fixture::USUAL, STAYS);
}

/// The tables of a version stay while it lives, also where its store merged them and is dropped.
const OUTLIVES: &str = "\
accounts | transfers 1001 200 | publish: 2 | mark
take | ask taken 0 then: 1000
repeat 0 12 round N | publish: 2 | run compact | show
take | ask taken 1 now: 1000
ask taken 0 then: 1000 | outlives taken";

#[test]
fn a_version_keeps_its_tables_and_outlives_its_store(rt: HostRuntime) {
    assert_text(&rt, Fixture::USUAL, OUTLIVES);
}

/// Random commands, publishes and compactions among them.
const RANDOM: &str = "\
any 30
take | ask taken 0 now: 10
publish: any";

#[test]
fn a_store_answers_random_commands_as_the_plain_ledger_does(rt: HostRuntime) {
    for seed in 0..60 {
        assert_text(&rt, Fixture::with_parameter(seed), RANDOM);
    }
}

/// A thousand transfers are published one by one, and all rows merged after each, in a heap of three times what is live at last:
/// tables, what registries keep of tables that are gone, and references, rounded up from what was measured.
const SUSTAINED: &str = "\
ids 0
accounts | publish: 1
repeat 1 1001 transfers N 1 | publish: 1 | run compact | show
used: 2700000
take | ask taken 0 now: 1000
give 0 | ask given 0 now: 1000 | let_given | follow 0 | ask held 0 now: 1000";

#[test]
fn memory_for_a_thousand_merged_publishes_is_that_of_what_is_kept(rt: HostRuntime) {
    assert_text(&rt, Fixture::with_room(3 * 2_700_000), SUSTAINED);
}
