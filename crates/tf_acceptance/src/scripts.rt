//! Random scripts, over the store and over the plain ledger.

mod lines;
mod strewn;

use std::test::Fail;
use strewn::assert_scripts_alike;

#[test]
fn random_scripts_print_the_same_over_both(rt: HostRuntime) -> Result<(), Fail> {
    assert_scripts_alike(&rt)
}
