//! Readers: each answers as the plain ledger does, whatever is stored, published and merged beside it.

use crate::texts::assert_text;
use tf_text_trials::Fixture;

/// Accounts that weren't published yet are seen by no reader; once they are, the one that learned the receipt and the one that
/// learned nothing see them. A version publishes too, but for receipts. A batch that stores nothing pushes no table.
const WORKED: &str = "\
run accounts 1000; + id=1 ledger=700 code=10; + id=2 ledger=700 code=10; end
repeat 0 2 give N | ask given 0 then: 0 | let_given | follow N | ask held N then: 0
publish 0: 1 | receipt 0 0: none | mark
repeat 0 2 give N | ask given 0 then: 5 | let_given | follow N | ask held N then: 5
run transfers 1000; + id=5 debit_account_id=1 credit_account_id=2 amount=30 ledger=700 code=1; end
take
publish 0: 1 | receipt 0 1002: none
count registered: 18
run transfers 0; + id=5 debit_account_id=1 credit_account_id=2 amount=30 ledger=700 code=1; end
publish 0: 1 | receipt 0 1003: 0=exists
count registered: 18
repeat 0 2 give N | ask given 0 now: 10 | let_given | follow N | ask held N now: 10";

#[test]
fn two_readers_of_a_worked_example_see_what_was_published(rt: HostRuntime) {
    assert_text(&rt, Fixture::with_readers(2), WORKED);
}

/// Rounds that are stored and published, and a compaction: the readers see none of a round before, and all of it then. The first
/// learns of it from a receipt.
const FOLLOW: &str = "\
count shares: 64 | count readers: M
accounts
repeat 0 M give N | ask given 0 then: 0 | let_given | follow N | ask held N then: 0
publish 0: 1 | mark
repeat 0 M give N | ask given 0 then: 10 | let_given | follow N | ask held N then: 10
round 0
repeat 0 M give N | ask given 0 then: 10 | let_given | follow N | ask held N then: 10
publish 0: 2 | mark
repeat 0 M give N | ask given 0 then: 30 | let_given | follow N | ask held N then: 30
round 1
repeat 0 M give N | ask given 0 then: 30 | let_given | follow N | ask held N then: 30
publish 0: 2 | mark
repeat 0 M give N | ask given 0 then: 40 | let_given | follow N | ask held N then: 40
round 2
repeat 0 M give N | ask given 0 then: 40 | let_given | follow N | ask held N then: 40
publish 0: 2 | mark
repeat 0 M give N | ask given 0 then: 50 | let_given | follow N | ask held N then: 50
run compact
repeat 0 M give N | ask given 0 then: 50 | let_given | follow N | ask held N then: 50";

#[test]
fn two_readers_answer_as_the_plain_ledger_does(rt: HostRuntime) {
    assert_text(&rt, Fixture::with_readers(2), FOLLOW);
}

#[test]
fn all_of_64_readers_are_given_and_see_each_publish(rt: HostRuntime) {
    assert_text(&rt, Fixture::with_readers(64), FOLLOW);
}

/// A reader keeps a version, and holds another, through five rounds and a compaction. Both stay what they were until it is given
/// another and follows, which take no memory.
const KEEPS: &str = "\
accounts | publish: 1 | mark
give 0 | ask given 0 then: 10 | let_given | follow 0 | ask held 0 then: 10
give 0
repeat 0 5 round N | publish: 2 | ask given 0 then: 10 | ask held 0 then: 10
run compact
ask given 0 then: 10 | ask held 0 then: 10
fill 0 | give 0 | follow 0 | free
ask given 0 then: 10 | ask given 1 now: 100 | ask held 0 now: 100
give 0 | ask given 2 now: 100 | let_given";

#[test]
fn a_reader_keeps_its_version_whatever_is_published_and_merged(rt: HostRuntime) {
    assert_text(&rt, Fixture::USUAL, KEEPS);
}

/// A reader holds a version while rounds are published and merged, and after its store is dropped.
const OUTLIVES: &str = "\
accounts | transfers 1001 200 | publish: 2 | mark
follow 0 | ask held 0 then: 1000
repeat 0 12 round N | publish: 2 | run compact | show
ask held 0 then: 1000 | outlives held";

#[test]
fn a_version_that_a_reader_holds_outlives_its_store(rt: HostRuntime) {
    assert_text(&rt, Fixture::USUAL, OUTLIVES);
}

/// Of two readers one follows each publish, and the other holds its first version to the end. Once that one lets go, the tables
/// come back that it alone had kept: 200 records and ids at least.
const LETS_GO: &str = "\
accounts | transfers 1001 200 | publish: 2 | mark
follow 0 | ask held 0 then: 1000
repeat 0 12 round N | publish: 2 | run compact | show | follow 1 | ask held 1 now: 1000
ask held 0 then: 1000
note | follow 0 | freed: 80000
ask held 0 now: 1000";

#[test]
fn what_a_reader_alone_held_comes_back_once_it_lets_go(rt: HostRuntime) {
    assert_text(&rt, Fixture::with_readers(2), LETS_GO);
}
