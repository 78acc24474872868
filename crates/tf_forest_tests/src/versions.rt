//! Forests that are published, whose versions answer queries and look-ups as the plain ledger does.

mod many;

use many::try_many;
use std::alloc::Global;
use std::marker::Brand;
use std::process::Abort;
use std::sync::Wait;
use std::test::Fail;
use tf_forest_trials::{Course, Trial};
use tf_manifest::Registries;
use tf_mutable_rows::MutableTables;
use tf_registry::Pushes;
use tf_version_trials::try_each;

/// A course, with registries of its own.
fn assert_course<R: Abort + AllocGlobal + Wait>(rt: &R, course: Course) -> Result<(), Fail> {
    let limit = course.limit().unwrap_or(Pushes::MOST);
    let registries = Registries::with_limit(rt.alloc(), limit)?;
    let tried = try_each::<MutableTables<Global>, Global, Brand, R>(
        rt,
        rt.alloc(),
        rt.alloc(),
        &registries,
        course,
    );
    drop(registries);
    assert!(rt; tried?);
    Ok(())
}

#[test]
fn a_version_stays_whatever_is_published_and_merged_later(rt: HostRuntime) -> Result<(), Fail> {
    assert_course(&rt, Course::Once(Trial::Stays))
}

#[test]
fn versions_answer_scripts_as_the_plain_ledger_does(rt: HostRuntime) -> Result<(), Fail> {
    assert_course(&rt, Course::Scripts)
}

#[test]
fn versions_of_random_journals_answer_as_the_plain_ledger_does(
    rt: HostRuntime,
) -> Result<(), Fail> {
    assert_course(&rt, Course::Journals)
}

#[test]
fn many_filters_are_answered_at_once_as_one_by_one(rt: HostRuntime) -> Result<(), Fail> {
    let registries = Registries::new(rt.alloc())?;
    let tried = try_many::<MutableTables<Global>, Global, Brand, HostRuntime>(
        &rt,
        rt.alloc(),
        rt.alloc(),
        &registries,
    );
    drop(registries);
    assert!(rt; tried?);
    Ok(())
}

#[test]
fn versions_answer_as_the_plain_ledger_does_where_a_part_of_a_scan_ends(
    rt: HostRuntime,
) -> Result<(), Fail> {
    assert_course(&rt, Course::Once(Trial::Parts))
}

#[test]
fn a_version_that_was_refused_memory_answers_as_before(rt: HostRuntime) -> Result<(), Fail> {
    assert_course(&rt, Course::Once(Trial::Refusals))
}

#[test]
fn publishes_and_merges_stay_within_their_bounds(rt: HostRuntime) -> Result<(), Fail> {
    assert_course(&rt, Course::Once(Trial::Bounds))
}

#[test]
fn a_publish_of_18_tables_is_refused_under_a_limit_of_17_alone(
    rt: HostRuntime,
) -> Result<(), Fail> {
    assert_course(&rt, Course::Once(Trial::Limit(17)))?;
    assert_course(&rt, Course::Once(Trial::Limit(18)))
}
