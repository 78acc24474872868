//! Kinds of rows and of values.

use std::process::Abort;
use std::test::Fail;
use tf_journal::Status;
use tf_manifest::{IdStamp, Kind, Row, RowValue, StampRow, State, Stored, UnitRow, Value};
use tf_records::Sums;
use tf_table::Repeats;

/// The row has this number, and stands at that place among all.
fn assert_number(rt: &impl Abort, row: Row, number: u32) {
    assert!(rt; row.number() == number);
    assert!(rt; Row::ALL.get(number as usize) == Some(&row));
}

#[test]
fn rows_have_their_numbers(rt: HostRuntime) -> Result<(), Fail> {
    assert_number(&rt, Row::AccountObjects, 0);
    assert_number(&rt, Row::TransferIds, 9);
    assert_number(&rt, Row::Expiry, 18);
    assert_number(&rt, Row::History, 20);
    Ok(())
}

#[test]
fn rows_have_their_kinds(rt: HostRuntime) -> Result<(), Fail> {
    let (entries, expiry) = (StampRow::ExpiryEntries, UnitRow::Expiry);
    assert!(rt; Row::ExpiryEntries.kind() == Kind::Stamp(entries));
    assert!(rt; Row::Expiry.kind() == Kind::Unit(expiry));
    assert!(rt; entries.index() + 1 == StampRow::COUNT);
    assert!(rt; expiry.index() + 1 == UnitRow::COUNT);
    Ok(())
}

#[test]
fn stored_stamps_are_those_of_rows(rt: HostRuntime) -> Result<(), Fail> {
    assert!(rt; 7u64.to_value() == Value::Stamp(7));
    assert!(rt; IdStamp::Stored(7).to_value() == Value::Stamp(7));
    assert!(rt; IdStamp::Failed(7).to_value() == Value::FailedAt(7));
    assert!(rt; ().to_value() == Value::Unit);
    Ok(())
}

#[test]
fn stored_sums_and_states_are_those_of_rows(rt: HostRuntime) -> Result<(), Fail> {
    let sums = Sums {
        debits_pending: 1,
        debits_posted: 2,
        credits_pending: 3,
        credits_posted: 4,
    };
    let state = State { sums, closed: true };
    let voided = Stored {
        record: Status::Voided,
    };
    assert!(rt; Stored { record: sums }.to_value() == Value::Sums(sums));
    assert!(rt; state.to_value() == Value::State(state));
    assert!(rt; !state.repeats(&state));
    assert!(rt; voided.to_value() == Value::Status(Status::Voided));
    Ok(())
}
