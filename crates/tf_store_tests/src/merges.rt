//! Merges of each row, and installs that are refused.

use crate::texts::assert_text;
use tf_text_trials::Fixture;

/// Eight rounds leave eight tables in each row, of which three merges of two make five. Each run is merged twice: one merge is
/// installed, after which versions answer as before, and the other is stale, which changes nothing.
const MERGES: &str = "\
accounts | round 0 | publish: 3
repeat 1 8 round N | publish: 2
count references: 8 | count registered: 168
repeat 0 21 merge N | merge N | install | note | install: stale | same | take | ask taken 0 now: 100 | let_taken
count references: 7 | count registered: 189
repeat 0 21 merge N | merge N | install | note | install: stale | same | take | ask taken 0 now: 100 | let_taken
count references: 6 | count registered: 210
repeat 0 21 merge N | merge N | install | note | install: stale | same | take | ask taken 0 now: 100 | let_taken
count references: 5 | count registered: 231
repeat 0 21 merge N: nothing
install: nothing";

#[test]
fn each_row_is_merged_to_the_end_and_second_merges_are_stale(rt: HostRuntime) {
    assert_text(&rt, Fixture::USUAL, MERGES);
}

/// Registries make room for 32 tables at first, and for more at the 29th push, where there is memory for it: it leaves an eighth
/// of the room. That one is refused it here, in a heap with half a megabyte left of which each second 2,304 bytes are free. So is
/// the install of a merged table after 32 publishes, which hands the table back; then it is installed.
const HANDED_BACK: &str = "\
accounts | transfers 1 1 | publish: 2
repeat 2 29 transfers N 1 | publish: 1
transfers 29 1 | fill 524288 | holes 2304 | publish: 1 | free
repeat 30 33 transfers N 1 | publish: 1
count registered: 359
note | merge 9 | fill 524288 | holes 2304 | install: no_memory | free | same
install | count registered: 360
install: nothing";

#[test]
fn an_install_that_was_refused_memory_hands_its_table_back(rt: HostRuntime) {
    assert_text(&rt, Fixture::USUAL, HANDED_BACK);
}

/// Readers go on to refer to tables that merges retired until they are shown the merged ones. Then those of 200 transfers come back,
/// beside the 43 KB of a version's references.
const SHOWN: &str = "\
accounts | transfers 1001 200 | publish: 2
repeat 0 4 round N | publish: 2
run compact
note | show | freed: 80000 | same
take | ask taken 0 now: 1000";

#[test]
fn what_merges_retired_comes_back_once_readers_are_shown_them(rt: HostRuntime) {
    assert_text(&rt, Fixture::USUAL, SHOWN);
}

/// Jobs of one row that overlap. Ten publishes leave two tables of level 0 and four of level 1, of which a run is merged twice, and then
/// one of level 0, which is installed before one of them: the other is stale. Then a run of level 0 is merged twice, and of level 1
/// once: the second of the former is stale, installed behind the latter.
const CROSSED: &str = "\
ids 60
accounts | round 0 | publish: 3
repeat 1 10 round N | publish: 2
repeat 0 4 merge 9 | install
merge 9 | merge 9
repeat 10 12 round N | publish: 2
merge 9 | install | install | note | install: stale | same | install: nothing
take | ask taken 0 now: 100 | let_taken
repeat 12 14 round N | publish: 2
merge 9 | merge 9 | install | merge 9 | install | note | install: stale | same | install: nothing
take | ask taken 0 now: 100";

#[test]
fn jobs_that_overlap_are_installed_in_either_order(rt: HostRuntime) {
    assert_text(&rt, Fixture::USUAL, CROSSED);
}

/// A row of 64 tables, whose run is merged twice by jobs, and once more by the publish that finds the row full. Both installs are
/// stale.
const OVERTAKEN: &str = "\
accounts | transfers 1 1 | publish: 2
repeat 2 65 transfers N 1 | publish: 1
merge 9 | merge 9
transfers 65 1 | publish: 1
count registered: 733
note | install: stale | install: stale | same | install: nothing
take | ask taken 0 now: 300";

#[test]
fn jobs_that_a_publish_overtook_are_stale(rt: HostRuntime) {
    assert_text(&rt, Fixture::USUAL, OVERTAKEN);
}

/// Four pending transfers, each published by itself. The run of their expiries is merged, and installed once two of them have expired
/// and that was published.
const PICKED_BEFORE: &str = "\
run accounts 1000; + id=1 ledger=700 code=10; + id=2 ledger=700 code=10; end
publish: 1
run transfers 0; + id=5 debit_account_id=1 credit_account_id=2 amount=10 ledger=700 code=1 flags=pending timeout=1; end
publish: 1
run transfers 0; + id=6 debit_account_id=1 credit_account_id=2 amount=10 ledger=700 code=1 flags=pending timeout=1; end
publish: 1
run transfers 0; + id=7 debit_account_id=1 credit_account_id=2 amount=10 ledger=700 code=1 flags=pending timeout=1; end
publish: 1
run transfers 0; + id=8 debit_account_id=1 credit_account_id=2 amount=10 ledger=700 code=1 flags=pending timeout=1; end
publish: 1
merge 18 | merge 18
run pulse 1000001004 10 | count book: 8
publish: 0 | install | note | install: stale | same
take | ask taken 0 now: 20
run pulse 1000001006 10 | count book: 10";

#[test]
fn expiries_are_merged_beside_a_pulse_and_a_publish(rt: HostRuntime) {
    assert_text(&rt, Fixture::USUAL, PICKED_BEFORE);
}
