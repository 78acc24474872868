//! Which fields of a filter lead, and which are tested on the records that those lead to.
//!
//! Of a ledger or a code an index often has a large part of all timestamps. To join it with something that leads to fewer takes
//! a search for each of these; to fetch their records takes less, and those that match are wanted anyway. How many timestamps
//! an index has under a value is told by its largest table alone, which may err: a choice costs time, and no answer.

use crate::residual::Tested;
use std::alloc::Allocator;
use tf_look_ups::key_of;
use tf_manifest::{Manifest, UnitRow};
use tf_records::{AccountFilter, QueryFilter};
use tf_registry::{Naming, Tables};
use tf_table::Sealed;

/// The table of a row that has most rows.
fn largest<'r, A: Allocator, N: Naming>(tables: &'r Tables<(), A, N>) -> Option<&'r Sealed<(), A>> {
    let mut largest: Option<&'r Sealed<(), A>> = None;
    for reference in tables.references() {
        let table = reference.table().table();
        let most = match largest {
            Some(table) => table.len(),
            None => 0,
        };
        if table.len() > most {
            largest = Some(table);
        }
    }
    largest
}

/// How many timestamps the largest table of an index has under a value, None where nothing is asked for. It takes two searches.
fn weight<A: Allocator, N: Naming>(
    manifest: &Manifest<A, N>,
    row: UnitRow,
    value: u128,
) -> Option<usize> {
    if value == 0 {
        return None;
    }
    let Some(table) = largest(manifest.units.row(row.index())) else {
        return Some(0);
    };
    let rows = table.range(&key_of(value, 0), &key_of(value, u64::MAX));
    let (keys, _entries) = rows.runs();
    Some(keys.len())
}

/// The lesser of two weights, of those that there are.
fn lesser(first: Option<usize>, second: Option<usize>) -> Option<usize> {
    match (first, second) {
        (Some(first), Some(second)) => Some(first.min(second)),
        (first, None) => first,
        (None, second) => second,
    }
}

/// Whether a field is tested beside what leads. One of which the largest table has nothing isn't.
fn is_tested(lead: Option<usize>, field: Option<usize>) -> bool {
    match (lead, field) {
        (Some(lead), Some(field)) => field > 0 && lead <= field,
        _ => false,
    }
}

/// The weight of the fields of the user's that a filter asks for: that of the one with the least.
fn user_weight<A: Allocator, N: Naming>(
    manifest: &Manifest<A, N>,
    filter: &QueryFilter,
) -> Option<usize> {
    let wide = weight(manifest, UnitRow::TransferUserData128, filter.user_data_128);
    let middle = weight(
        manifest,
        UnitRow::TransferUserData64,
        filter.user_data_64.into(),
    );
    let narrow = weight(
        manifest,
        UnitRow::TransferUserData32,
        filter.user_data_32.into(),
    );
    lesser(wide, lesser(middle, narrow))
}

/// Which fields of a filter of all transfers are tested: a ledger or a code that is asked for beside something that leads to
/// no more. Two searches for each field that is asked for, unless it is alone.
pub fn tested_of_query_filter<A: Allocator, N: Naming>(
    manifest: &Manifest<A, N>,
    filter: &QueryFilter,
) -> Tested {
    if filter.ledger == 0 && filter.code == 0 {
        return Tested::NONE;
    }
    let user = user_weight(manifest, filter);
    if user.is_none() && (filter.ledger == 0 || filter.code == 0) {
        return Tested::NONE;
    }
    let ledger = weight(manifest, UnitRow::TransferLedger, filter.ledger.into());
    let code = weight(manifest, UnitRow::TransferCode, filter.code.into());
    let tests_ledger = is_tested(lesser(user, code), ledger);
    let lead = if tests_ledger {
        user
    } else {
        lesser(user, ledger)
    };
    Tested {
        ledger: tests_ledger,
        code: is_tested(lead, code),
    }
}

/// The same of a filter of an account's transfers: whether a code that is asked for is tested beside the account's sides.
pub fn tested_of_account_filter<A: Allocator, N: Naming>(
    manifest: &Manifest<A, N>,
    filter: &AccountFilter,
) -> Tested {
    if filter.code == 0 {
        return Tested::NONE;
    }
    let debits = weight(manifest, UnitRow::TransferDebit, filter.account_id);
    let credits = weight(manifest, UnitRow::TransferCredit, filter.account_id);
    let code = weight(manifest, UnitRow::TransferCode, filter.code.into());
    Tested {
        ledger: false,
        code: is_tested(debits, code) && is_tested(credits, code),
    }
}
