//! What a filter leaves to be tested on the records that its scan leads to.
ghost use Rattle.std.specs.Prelude.{◌≡◌};
ghost use Rattle.tf_query.specs.Residual.{account_lead, account_residual, passes, query_lead, query_residual};

use tf_records::{AccountFilter, QueryFilter, Transfer};

/// The fields of a transfer that are tested once it is fetched. 0 asks for nothing.
#[derive(Clone, Copy)]
pub struct Residual {
    pub ledger: u32,
    pub code: u16,
}

/// Which fields of a filter are tested, where it asks for them. All others lead.
#[derive(Clone, Copy)]
pub struct Tested {
    pub ledger: bool,
    pub code: bool,
}

impl Tested {
    /// All that is asked for leads.
    pub const NONE: Tested = Tested {
        ledger: false,
        code: false,
    };
}

/// A filter without the fields that are tested: what its scan is asked for.
pub fn query_lead(tested: Tested, filter: &QueryFilter) -> QueryFilter
    ensures { result ≡ query_lead tested filter.now }
{
    QueryFilter {
        ledger: if tested.ledger { 0 } else { filter.ledger },
        code: if tested.code { 0 } else { filter.code },
        ..*filter
    }
}

/// The same of a filter of an account's transfers.
pub fn account_lead(tested: Tested, filter: &AccountFilter) -> AccountFilter
    ensures { result ≡ account_lead tested filter.now }
{
    AccountFilter {
        code: if tested.code { 0 } else { filter.code },
        ..*filter
    }
}

impl Residual {
    /// The fields of a filter that are tested.
    pub fn of_query_filter(tested: Tested, filter: &QueryFilter) -> Residual
        ensures { result ≡ query_residual tested filter.now }
    {
        Residual {
            ledger: if tested.ledger { filter.ledger } else { 0 },
            code: if tested.code { filter.code } else { 0 },
        }
    }

    /// The same of a filter of an account's transfers.
    pub fn of_account_filter(tested: Tested, filter: &AccountFilter) -> Residual
        ensures { result ≡ account_residual tested filter.now }
    {
        Residual {
            ledger: 0,
            code: if tested.code { filter.code } else { 0 },
        }
    }

    /// Whether a transfer has the fields that are tested. Both are compared, without a branch between them: whether a transfer
    /// passes can't be foretold, and one wrong guess is enough.
    #[inline]
    pub fn passes(&self, transfer: &Transfer) -> bool
        ensures { result ≡ passes self.now transfer.now }
    {
        let has_ledger = (self.ledger == 0) | (transfer.ledger == self.ledger);
        let has_code = (self.code == 0) | (transfer.code == self.code);
        has_ledger & has_code
    }
}
