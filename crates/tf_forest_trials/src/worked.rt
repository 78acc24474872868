//! Worked scripts, by their names. What they print is asked of `tf_worked`.

/// All of them, with `%` between two.
const WORKED: &str = concat!(
    // Those whose versions are refused memory in turn.

    // linked-chain-fails-whole
    "# One failing event of a chain fails the whole chain; the event after the chain stands.\n\
     accounts 1000\n\
     + id=1 ledger=700 code=10 flags=debits_must_not_exceed_credits\n\
     + id=2 ledger=700 code=10\n\
     end\n\
     transfers 0\n\
     + id=10 debit_account_id=2 credit_account_id=1 amount=50 ledger=700 code=1 flags=linked\n\
     + id=11 debit_account_id=1 credit_account_id=2 amount=20 ledger=700 code=1 flags=linked\n\
     + id=12 debit_account_id=1 credit_account_id=2 amount=31 ledger=700 code=1\n\
     + id=13 debit_account_id=2 credit_account_id=1 amount=7 ledger=700 code=1\n\
     end\n\
     query_transfers ledger=700 limit=10\n%",
    // expiry-order-of-equal-moments
    "# Two pending transfers that expire at the same moment expire one by one, the older first.\n\
     accounts 1000\n\
     + id=1 ledger=700 code=10\n\
     + id=2 ledger=700 code=10\n\
     end\n\
     transfers 0\n\
     + id=41 debit_account_id=1 credit_account_id=2 amount=1 ledger=700 code=1 flags=pending timeout=2\n\
     end\n\
     transfers 1000001002\n\
     + id=42 debit_account_id=1 credit_account_id=2 amount=1 ledger=700 code=1 flags=pending timeout=1\n\
     end\n\
     pulse 2000001003 1\n\
     pulse 0 1\n\
     pulse 0 1\n%",
    // pulse-expires-two-of-four
    "# A pulse expires those two of four pending transfers whose moment has come.\n\
     accounts 1000\n\
     + id=1 ledger=700 code=10\n\
     + id=2 ledger=700 code=10\n\
     end\n\
     transfers 0\n\
     + id=43 debit_account_id=1 credit_account_id=2 amount=10 ledger=700 code=1 flags=pending timeout=1\n\
     end\n\
     transfers 0\n\
     + id=44 debit_account_id=1 credit_account_id=2 amount=10 ledger=700 code=1 flags=pending timeout=1\n\
     end\n\
     transfers 0\n\
     + id=45 debit_account_id=1 credit_account_id=2 amount=10 ledger=700 code=1 flags=pending timeout=1\n\
     end\n\
     transfers 0\n\
     + id=46 debit_account_id=1 credit_account_id=2 amount=10 ledger=700 code=1 flags=pending timeout=1\n\
     end\n\
     pulse 1000001004 10\n\
     lookup_accounts 1\n%",
    // history-balances-around-expiry
    "# An account with history shows its sums after each transfer; an expiry has no row, the next row shows its effect.\n\
     accounts 1000\n\
     + id=1 ledger=700 code=10 flags=history\n\
     + id=2 ledger=700 code=10\n\
     end\n\
     transfers 0\n\
     + id=50 debit_account_id=1 credit_account_id=2 amount=10 ledger=700 code=1 flags=pending timeout=1\n\
     + id=51 debit_account_id=1 credit_account_id=2 amount=20 ledger=700 code=1 flags=pending\n\
     end\n\
     pulse 1000001003 10\n\
     transfers 0\n\
     + id=52 pending_id=51 flags=post_pending_transfer amount=max\n\
     end\n\
     get_account_balances account_id=1 limit=10 flags=debits|credits\n\
     get_account_balances account_id=2 limit=10 flags=debits|credits\n%",

    // Batches, chains and ids.

    // batch-without-events
    "# A batch without events moves the clock to its moment and says so.\n\
     accounts 1000\n\
     end\n%",
    // empty-script
    "%",
    // one-transfer
    "# Two accounts and one transfer between them, which a query then shows.\n\
     accounts 1000\n\
     + id=1 ledger=700 code=10\n\
     + id=2 ledger=700 code=10\n\
     end\n\
     transfers 1000\n\
     + id=5 debit_account_id=1 credit_account_id=2 amount=30 ledger=700 code=1\n\
     end\n\
     get_account_transfers account_id=1 limit=10 flags=debits|credits\n%",
    // repeated-transfer-id
    "# A transfer sent again exists; with another amount its id exists with a different amount.\n\
     accounts 1000\n\
     + id=1 ledger=700 code=10\n\
     + id=2 ledger=700 code=10\n\
     end\n\
     transfers 1000\n\
     + id=5 debit_account_id=1 credit_account_id=2 amount=30 ledger=700 code=1\n\
     end\n\
     get_account_transfers account_id=1 limit=10 flags=debits|credits\n\
     transfers 0\n\
     + id=5 debit_account_id=1 credit_account_id=2 amount=30 ledger=700 code=1\n\
     end\n\
     transfers 0\n\
     + id=5 debit_account_id=1 credit_account_id=2 amount=31 ledger=700 code=1\n\
     end\n%",
    // amount-at-the-greatest-sum
    "# The greatest amount fits an empty account once; one more overflows its posted debits.\n\
     accounts 1000\n\
     + id=1 ledger=700 code=10\n\
     + id=2 ledger=700 code=10\n\
     end\n\
     transfers 0\n\
     + id=43 debit_account_id=1 credit_account_id=2 amount=340282366920938463463374607431768211455 ledger=700 code=1\n\
     end\n\
     transfers 0\n\
     + id=44 debit_account_id=1 credit_account_id=2 amount=1 ledger=700 code=1\n\
     end\n%",
    // clock-at-its-end
    "# At the end of the clock a batch of two is refused and changes nothing, so a batch of one still fits.\n\
     accounts 9223372036854775806\n\
     end\n\
     accounts 0\n\
     + id=1 ledger=700 code=10\n\
     + id=2 ledger=700 code=10\n\
     end\n\
     accounts 0\n\
     + id=1 ledger=700 code=10\n\
     end\n%",
    // open-chain
    "# A batch that ends inside a chain stores none of it; an earlier fault of the chain keeps its own result.\n\
     accounts 1000\n\
     + id=1 ledger=700 code=10\n\
     + id=2 ledger=700 code=10\n\
     end\n\
     transfers 0\n\
     + id=14 debit_account_id=1 credit_account_id=2 amount=1 ledger=700 code=1 flags=linked\n\
     + id=15 debit_account_id=1 credit_account_id=2 amount=1 ledger=700 code=1 flags=linked\n\
     end\n\
     transfers 0\n\
     + id=14 debit_account_id=1 credit_account_id=2 amount=1 ledger=701 code=1 flags=linked\n\
     + id=15 debit_account_id=1 credit_account_id=2 amount=1 ledger=700 code=1 flags=linked\n\
     end\n%",
    // failed-id-stays-failed
    "# A transfer that failed for want of its credit account keeps its id failed, whatever is sent under it later.\n\
     accounts 1000\n\
     + id=1 ledger=700 code=10\n\
     + id=2 ledger=700 code=10\n\
     end\n\
     transfers 0\n\
     + id=80 debit_account_id=1 credit_account_id=9 amount=5 ledger=700 code=1\n\
     end\n\
     transfers 0\n\
     + id=80 debit_account_id=1 credit_account_id=2 amount=5 ledger=700 code=1\n\
     end\n\
     lookup_transfers 80\n%",
    // failed-id-in-chain-stays-failed
    "# Of a failed chain the id of the event with its own passing fault stays failed; the others may be sent again.\n\
     accounts 1000\n\
     + id=1 ledger=700 code=10 flags=debits_must_not_exceed_credits\n\
     + id=2 ledger=700 code=10\n\
     end\n\
     transfers 0\n\
     + id=10 debit_account_id=2 credit_account_id=1 amount=50 ledger=700 code=1 flags=linked\n\
     + id=11 debit_account_id=1 credit_account_id=2 amount=20 ledger=700 code=1 flags=linked\n\
     + id=12 debit_account_id=1 credit_account_id=2 amount=31 ledger=700 code=1\n\
     + id=13 debit_account_id=2 credit_account_id=1 amount=7 ledger=700 code=1\n\
     end\n\
     query_transfers ledger=700 limit=10\n\
     transfers 0\n\
     + id=12 debit_account_id=2 credit_account_id=1 amount=1 ledger=700 code=1\n\
     + id=10 debit_account_id=2 credit_account_id=1 amount=50 ledger=700 code=1\n\
     end\n%",
    // raw-stored-record-sent-back
    "# The bytes of a stored transfer, sent as an event, are refused because their timestamp is set.\n\
     accounts 1000\n\
     + id=1 ledger=700 code=10\n\
     + id=2 ledger=700 code=10\n\
     end\n\
     transfers 0\n\
     raw 0500000000000000000000000000000001000000000000000000000000000000020000000000000000000000000000001e000000000000000000000000000000000000000000000000000000000000000000000000000000000000000000000000000000000000000000000000000000bc02000001000000eb03000000000000\n\
     end\n%",

    // Pending transfers, pulses and closed accounts.

    // post-part-of-pending
    "# Posting part of a pending transfer frees the rest, which the account's limit then lets in, and no more.\n\
     accounts 1000\n\
     + id=1 ledger=700 code=10 flags=debits_must_not_exceed_credits\n\
     + id=2 ledger=700 code=10\n\
     end\n\
     transfers 0\n\
     + id=20 debit_account_id=2 credit_account_id=1 amount=100 ledger=700 code=1\n\
     + id=21 debit_account_id=1 credit_account_id=2 amount=100 ledger=700 code=1 flags=pending\n\
     + id=22 pending_id=21 amount=40 flags=post_pending_transfer\n\
     + id=23 debit_account_id=1 credit_account_id=2 amount=60 ledger=700 code=1 flags=pending\n\
     + id=24 debit_account_id=1 credit_account_id=2 amount=1 ledger=700 code=1 flags=pending\n\
     end\n\
     lookup_accounts 1\n%",
    // post-and-void-amounts
    "# A post of the greatest amount posts all, a post of nothing posts nothing, a void of part and a post of more are refused.\n\
     accounts 1000\n\
     + id=1 ledger=700 code=10\n\
     + id=2 ledger=700 code=10\n\
     end\n\
     transfers 0\n\
     + id=31 debit_account_id=1 credit_account_id=2 amount=100 ledger=700 code=1 flags=pending\n\
     + id=32 debit_account_id=1 credit_account_id=2 amount=100 ledger=700 code=1 flags=pending\n\
     + id=33 debit_account_id=1 credit_account_id=2 amount=100 ledger=700 code=1 flags=pending\n\
     + id=34 pending_id=31 flags=post_pending_transfer amount=max\n\
     + id=35 pending_id=32 flags=post_pending_transfer amount=0\n\
     + id=36 pending_id=33 flags=void_pending_transfer amount=99\n\
     + id=37 pending_id=33 flags=post_pending_transfer amount=101\n\
     end\n\
     lookup_transfers 34 35\n\
     lookup_accounts 1\n%",
    // repeated-post-and-void-ids
    "# A post sent again exists, its defaults filled in; with another amount it differs there; a void under a pending transfer's id differs in its flags.\n\
     accounts 1000\n\
     + id=1 ledger=700 code=10\n\
     + id=2 ledger=700 code=10\n\
     end\n\
     transfers 0\n\
     + id=31 debit_account_id=1 credit_account_id=2 amount=100 ledger=700 code=1 flags=pending\n\
     + id=32 debit_account_id=1 credit_account_id=2 amount=100 ledger=700 code=1 flags=pending\n\
     + id=33 debit_account_id=1 credit_account_id=2 amount=100 ledger=700 code=1 flags=pending\n\
     + id=34 pending_id=31 flags=post_pending_transfer amount=max\n\
     + id=35 pending_id=32 flags=post_pending_transfer amount=0\n\
     + id=36 pending_id=33 flags=void_pending_transfer amount=99\n\
     + id=37 pending_id=33 flags=post_pending_transfer amount=101\n\
     end\n\
     transfers 0\n\
     + id=34 pending_id=31 flags=post_pending_transfer amount=max\n\
     + id=34 pending_id=31 flags=post_pending_transfer amount=99\n\
     + id=31 pending_id=33 flags=void_pending_transfer\n\
     end\n%",
    // post-just-before-expiry
    "# A post one nanosecond before its pending transfer expires is accepted.\n\
     accounts 1000\n\
     + id=1 ledger=700 code=10\n\
     + id=2 ledger=700 code=10\n\
     end\n\
     transfers 0\n\
     + id=40 debit_account_id=1 credit_account_id=2 amount=10 ledger=700 code=1 flags=pending timeout=1\n\
     end\n\
     transfers 1000001001\n\
     + id=46 pending_id=40 flags=post_pending_transfer amount=max\n\
     end\n%",
    // post-at-expiry-then-pulse
    "# A post at the moment of expiry is refused though the amount is still pending; a pulse then takes it off.\n\
     accounts 1000\n\
     + id=1 ledger=700 code=10\n\
     + id=2 ledger=700 code=10\n\
     end\n\
     transfers 0\n\
     + id=40 debit_account_id=1 credit_account_id=2 amount=10 ledger=700 code=1 flags=pending timeout=1\n\
     end\n\
     transfers 1000001002\n\
     + id=46 pending_id=40 flags=post_pending_transfer amount=max\n\
     end\n\
     lookup_accounts 1\n\
     pulse 0 10\n\
     lookup_accounts 1\n%",
    // expiry-order-of-equal-moments-shown
    "# As expiry-order-of-equal-moments with amounts 1 and 2, so that the sums show which one expired first.\n\
     accounts 1000\n\
     + id=1 ledger=700 code=10\n\
     + id=2 ledger=700 code=10\n\
     end\n\
     transfers 0\n\
     + id=41 debit_account_id=1 credit_account_id=2 amount=1 ledger=700 code=1 flags=pending timeout=2\n\
     end\n\
     transfers 1000001002\n\
     + id=42 debit_account_id=1 credit_account_id=2 amount=2 ledger=700 code=1 flags=pending timeout=1\n\
     end\n\
     pulse 2000001003 1\n\
     lookup_accounts 1\n\
     pulse 0 1\n\
     lookup_accounts 1\n\
     pulse 0 1\n%",
    // pulse-at-the-clock-limit
    "# A pulse at the last moment that would expire one is refused; one that expires none sets the clock there.\n\
     accounts 1000\n\
     + id=1 ledger=700 code=10\n\
     + id=2 ledger=700 code=10\n\
     end\n\
     transfers 0\n\
     + id=45 debit_account_id=1 credit_account_id=2 amount=1 ledger=700 code=1 flags=pending timeout=1\n\
     end\n\
     pulse 0 0\n\
     pulse 9223372036854775807 5\n\
     pulse 9223372036854775807 0\n%",
    // closing-transfer-closes-account
    "# An open closing transfer closes its debit account on both sides; voiding it opens the account again.\n\
     accounts 1000\n\
     + id=1 ledger=700 code=10\n\
     + id=2 ledger=700 code=10\n\
     end\n\
     transfers 0\n\
     + id=70 debit_account_id=1 credit_account_id=2 amount=0 ledger=700 code=1 flags=pending|closing_debit\n\
     + id=71 debit_account_id=1 credit_account_id=2 amount=1 ledger=700 code=1\n\
     + id=72 debit_account_id=2 credit_account_id=1 amount=1 ledger=700 code=1\n\
     + id=73 pending_id=70 flags=void_pending_transfer\n\
     + id=74 debit_account_id=1 credit_account_id=2 amount=1 ledger=700 code=1\n\
     end\n%",
    // closed-account-refuses-post
    "# A closed account shows its closed flag, refuses the post of the transfer that closed it, and its event sent again differs in its flags.\n\
     accounts 1000\n\
     + id=1 ledger=700 code=10\n\
     + id=2 ledger=700 code=10\n\
     end\n\
     transfers 0\n\
     + id=70 debit_account_id=1 credit_account_id=2 amount=0 ledger=700 code=1 flags=pending|closing_debit\n\
     end\n\
     lookup_accounts 1\n\
     transfers 0\n\
     + id=75 pending_id=70 flags=post_pending_transfer amount=max\n\
     end\n\
     accounts 0\n\
     + id=1 ledger=700 code=10\n\
     end\n%",
    // closing-flag-needs-pending
    "# A transfer with a closing flag that isn't pending is refused.\n\
     accounts 1000\n\
     + id=1 ledger=700 code=10\n\
     + id=2 ledger=700 code=10\n\
     end\n\
     transfers 0\n\
     + id=76 debit_account_id=1 credit_account_id=2 amount=1 ledger=700 code=1 flags=closing_debit\n\
     end\n%",
    // expiry-opens-closed-account
    "# When a closing transfer expires, its account is open again.\n\
     accounts 1000\n\
     + id=1 ledger=700 code=10\n\
     + id=2 ledger=700 code=10\n\
     end\n\
     transfers 0\n\
     + id=70 debit_account_id=1 credit_account_id=2 amount=0 ledger=700 code=1 flags=pending|closing_debit timeout=1\n\
     end\n\
     lookup_accounts 1\n\
     pulse 1000001003 1\n\
     lookup_accounts 1\n%",

    // Queries and look-ups.

    // account-transfers-filtered-both-ways
    "# A query by account, code and bounds gives the first two or, reversed, the last two.\n\
     accounts 1000\n\
     + id=1 ledger=700 code=10\n\
     + id=2 ledger=700 code=10\n\
     end\n\
     transfers 0\n\
     + id=61 debit_account_id=1 credit_account_id=2 amount=1 ledger=700 code=1\n\
     + id=62 debit_account_id=2 credit_account_id=1 amount=1 ledger=700 code=2\n\
     + id=63 debit_account_id=2 credit_account_id=1 amount=1 ledger=700 code=1\n\
     + id=64 debit_account_id=1 credit_account_id=2 amount=1 ledger=700 code=1\n\
     + id=65 debit_account_id=2 credit_account_id=1 amount=1 ledger=700 code=1\n\
     end\n\
     get_account_transfers account_id=1 code=1 timestamp_min=1003 timestamp_max=1007 limit=2 flags=debits|credits|reversed\n\
     get_account_transfers account_id=1 code=1 timestamp_min=1003 timestamp_max=1007 limit=2 flags=debits|credits\n%",
    // invalid-account-filters
    "# Four filters that aren't valid have empty answers: limit 0, bounds the wrong way round, an unknown flag, the greatest account id.\n\
     accounts 1000\n\
     + id=1 ledger=700 code=10\n\
     + id=2 ledger=700 code=10\n\
     end\n\
     transfers 0\n\
     + id=61 debit_account_id=1 credit_account_id=2 amount=1 ledger=700 code=1\n\
     + id=62 debit_account_id=2 credit_account_id=1 amount=1 ledger=700 code=2\n\
     + id=63 debit_account_id=2 credit_account_id=1 amount=1 ledger=700 code=1\n\
     + id=64 debit_account_id=1 credit_account_id=2 amount=1 ledger=700 code=1\n\
     + id=65 debit_account_id=2 credit_account_id=1 amount=1 ledger=700 code=1\n\
     end\n\
     get_account_transfers account_id=1 limit=0 flags=debits|credits\n\
     get_account_transfers account_id=1 timestamp_min=5 timestamp_max=4 limit=10 flags=debits|credits\n\
     get_account_transfers account_id=1 limit=10 flags=15\n\
     get_account_transfers account_id=max limit=10 flags=debits|credits\n%",
    // lookup-repeats-and-query-accounts
    "# A lookup gives an id asked twice twice and passes over one that isn't there; a query by ledger gives both accounts.\n\
     accounts 1000\n\
     + id=1 ledger=700 code=10\n\
     + id=2 ledger=700 code=10\n\
     end\n\
     lookup_accounts 2 9 2\n\
     query_accounts ledger=700 limit=10\n%",
    // raw-query-filter
    "# A filter given as raw bytes answers as its fields do; with one reserved byte set its answer is empty.\n\
     accounts 1000\n\
     + id=1 ledger=700 code=10\n\
     + id=2 ledger=700 code=10\n\
     end\n\
     transfers 1000\n\
     + id=5 debit_account_id=1 credit_account_id=2 amount=30 ledger=700 code=1\n\
     end\n\
     get_account_transfers account_id=1 limit=10 flags=debits|credits\n\
     query_transfers raw 00000000000000000000000000000000000000000000000000000000bc0200000000000000000000000000000000000000000000000000000a00000000000000\n\
     query_transfers raw 00000000000000000000000000000000000000000000000000000000bc0200000000010000000000000000000000000000000000000000000a00000000000000\n%",

    // Four clients with accounts of their own.

    // first-client
    "# One of four clients: two accounts of its own and three transfers between them.\n\
     accounts 0\n\
     + id=11 ledger=700 code=10\n\
     + id=12 ledger=700 code=10\n\
     end\n\
     transfers 0\n\
     + id=111 debit_account_id=11 credit_account_id=12 amount=5 ledger=700 code=1\n\
     + id=112 debit_account_id=12 credit_account_id=11 amount=3 ledger=700 code=1\n\
     + id=113 debit_account_id=11 credit_account_id=12 amount=1 ledger=700 code=1\n\
     end\n%",
    // second-client
    "# One of four clients: two accounts of its own and three transfers between them.\n\
     accounts 0\n\
     + id=21 ledger=700 code=10\n\
     + id=22 ledger=700 code=10\n\
     end\n\
     transfers 0\n\
     + id=121 debit_account_id=21 credit_account_id=22 amount=5 ledger=700 code=1\n\
     + id=122 debit_account_id=22 credit_account_id=21 amount=3 ledger=700 code=1\n\
     + id=123 debit_account_id=21 credit_account_id=22 amount=1 ledger=700 code=1\n\
     end\n%",
    // third-client
    "# One of four clients: two accounts of its own and three transfers between them.\n\
     accounts 0\n\
     + id=31 ledger=700 code=10\n\
     + id=32 ledger=700 code=10\n\
     end\n\
     transfers 0\n\
     + id=131 debit_account_id=31 credit_account_id=32 amount=5 ledger=700 code=1\n\
     + id=132 debit_account_id=32 credit_account_id=31 amount=3 ledger=700 code=1\n\
     + id=133 debit_account_id=31 credit_account_id=32 amount=1 ledger=700 code=1\n\
     end\n%",
    // fourth-client
    "# One of four clients: two accounts of its own and three transfers between them.\n\
     accounts 0\n\
     + id=41 ledger=700 code=10\n\
     + id=42 ledger=700 code=10\n\
     end\n\
     transfers 0\n\
     + id=141 debit_account_id=41 credit_account_id=42 amount=5 ledger=700 code=1\n\
     + id=142 debit_account_id=42 credit_account_id=41 amount=3 ledger=700 code=1\n\
     + id=143 debit_account_id=41 credit_account_id=42 amount=1 ledger=700 code=1\n\
     end\n%",

    // The recipes of `examples/`: the commands of those files.

    // balance-statement
    "accounts 1000\n\
     + id=1 ledger=840 code=10 flags=history\n\
     + id=2 ledger=840 code=20\n\
     end\n\
     transfers 2000\n\
     + id=600 debit_account_id=2 credit_account_id=1 amount=300000 ledger=840 code=7\n\
     + id=601 debit_account_id=1 credit_account_id=2 amount=90000 ledger=840 code=8\n\
     + id=602 debit_account_id=1 credit_account_id=2 amount=2500 ledger=840 code=9 flags=pending\n\
     end\n\
     transfers 3000\n\
     + id=603 pending_id=602 amount=2000 flags=post_pending_transfer\n\
     end\n\
     get_account_transfers account_id=1 limit=100 flags=debits|credits|reversed\n\
     get_account_balances account_id=1 limit=100 flags=debits|credits|reversed\n\
     get_account_balances account_id=1 limit=100 flags=credits\n\
     get_account_balances account_id=2 limit=100 flags=debits|credits\n%",
    // closing-an-account
    "accounts 1000\n\
     + id=1 ledger=840 code=10\n\
     + id=2 ledger=840 code=20\n\
     end\n\
     transfers 2000\n\
     + id=700 debit_account_id=2 credit_account_id=1 amount=500 ledger=840 code=1\n\
     + id=701 debit_account_id=1 credit_account_id=2 amount=500 ledger=840 code=1 flags=linked\n\
     + id=702 debit_account_id=1 credit_account_id=2 amount=0 ledger=840 code=2 flags=pending|closing_debit\n\
     end\n\
     lookup_accounts 1\n\
     transfers 3000\n\
     + id=703 debit_account_id=2 credit_account_id=1 amount=1 ledger=840 code=1\n\
     end\n\
     transfers 4000\n\
     + id=704 pending_id=702 flags=void_pending_transfer\n\
     + id=703 debit_account_id=2 credit_account_id=1 amount=1 ledger=840 code=1\n\
     + id=705 debit_account_id=2 credit_account_id=1 amount=1 ledger=840 code=1\n\
     end\n\
     lookup_accounts 1\n%",
    // currency-exchange
    "accounts 1000\n\
     + id=1 ledger=840 code=10 flags=debits_must_not_exceed_credits\n\
     + id=2 ledger=978 code=10\n\
     + id=11 ledger=840 code=30\n\
     + id=12 ledger=978 code=30\n\
     end\n\
     transfers 2000\n\
     + id=500 debit_account_id=11 credit_account_id=1 amount=10000 ledger=840 code=2\n\
     end\n\
     transfers 3000\n\
     + id=501 debit_account_id=1 credit_account_id=11 amount=10000 ledger=840 code=5 flags=linked\n\
     + id=502 debit_account_id=12 credit_account_id=2 amount=9200 ledger=978 code=5\n\
     end\n\
     transfers 4000\n\
     + id=503 debit_account_id=1 credit_account_id=11 amount=10000 ledger=840 code=5 flags=linked\n\
     + id=504 debit_account_id=12 credit_account_id=2 amount=9200 ledger=978 code=5\n\
     end\n\
     transfers 5000\n\
     + id=505 debit_account_id=12 credit_account_id=2 amount=1 ledger=978 code=5 flags=linked\n\
     end\n\
     lookup_accounts 1 2 11 12\n%",
    // expiry
    "accounts 1000\n\
     + id=1 ledger=840 code=10\n\
     + id=2 ledger=840 code=20\n\
     end\n\
     transfers 2000\n\
     + id=300 debit_account_id=1 credit_account_id=2 amount=900 ledger=840 code=1 timeout=30 flags=pending\n\
     end\n\
     transfers 30000002000\n\
     + id=301 pending_id=300 amount=max flags=post_pending_transfer\n\
     end\n\
     lookup_accounts 1\n\
     pulse 30000002001 10\n\
     lookup_accounts 1\n\
     lookup_transfers 300\n%",
    // first-transfer
    "accounts 1000\n\
     + id=1 ledger=700 code=10\n\
     + id=2 ledger=700 code=10\n\
     end\n\
     transfers 1000\n\
     + id=5 debit_account_id=1 credit_account_id=2 amount=30 ledger=700 code=1\n\
     end\n\
     get_account_transfers account_id=1 limit=10 flags=debits|credits\n%",
    // overdraft-limit
    "accounts 1000\n\
     + id=1 ledger=840 code=10 flags=debits_must_not_exceed_credits\n\
     + id=2 ledger=840 code=20\n\
     end\n\
     transfers 2000\n\
     + id=400 debit_account_id=1 credit_account_id=2 amount=1 ledger=840 code=1\n\
     + id=401 debit_account_id=2 credit_account_id=1 amount=10000 ledger=840 code=2\n\
     + id=402 debit_account_id=1 credit_account_id=2 amount=6000 ledger=840 code=1 flags=pending\n\
     + id=403 debit_account_id=1 credit_account_id=2 amount=4001 ledger=840 code=1\n\
     + id=404 debit_account_id=1 credit_account_id=2 amount=4000 ledger=840 code=1\n\
     end\n\
     lookup_accounts 1\n\
     transfers 3000\n\
     + id=401 debit_account_id=2 credit_account_id=1 amount=10000 ledger=840 code=2\n\
     + id=400 debit_account_id=2 credit_account_id=1 amount=1 ledger=840 code=2\n\
     end\n%",
    // partial-post
    "accounts 1000\n\
     + id=1 ledger=978 code=10\n\
     + id=2 ledger=978 code=20\n\
     end\n\
     transfers 2000\n\
     + id=200 debit_account_id=1 credit_account_id=2 amount=30000 ledger=978 code=3 flags=pending\n\
     end\n\
     transfers 3000\n\
     + id=201 pending_id=200 amount=24550 flags=post_pending_transfer\n\
     + id=202 pending_id=200 amount=100 flags=post_pending_transfer\n\
     end\n\
     lookup_accounts 1 2\n\
     lookup_transfers 201\n\
     transfers 4000\n\
     + id=203 debit_account_id=1 credit_account_id=2 amount=10 ledger=978 code=3 flags=pending\n\
     + id=204 pending_id=203 amount=11 flags=post_pending_transfer\n\
     end\n%",
    // refusals
    "accounts 1000\n\
     + id=1 ledger=700 code=10\n\
     + id=2 ledger=700 code=10\n\
     + id=3 ledger=701 code=10\n\
     + id=0 ledger=700 code=10\n\
     + id=4 code=10\n\
     end\n\
     transfers 2000\n\
     + id=1 debit_account_id=1 credit_account_id=2 amount=max ledger=700 code=1\n\
     + id=2 debit_account_id=1 credit_account_id=2 amount=1 ledger=700 code=1\n\
     + id=3 debit_account_id=1 credit_account_id=3 amount=1 ledger=700 code=1\n\
     + id=4 debit_account_id=1 credit_account_id=9 amount=1 ledger=700 code=1\n\
     + id=5 debit_account_id=1 credit_account_id=1 amount=1 ledger=700 code=1\n\
     end\n\
     transfers max\n\
     + id=6 debit_account_id=1 credit_account_id=2 amount=1 ledger=700 code=1\n\
     end\n\
     get_account_transfers account_id=1 limit=10\n\
     get_account_transfers account_id=1 limit=10 flags=debits|credits\n%",
    // searches
    "accounts 1000\n\
     + id=1 ledger=840 code=10 user_data_128=77\n\
     + id=2 ledger=840 code=20\n\
     + id=3 ledger=978 code=10 user_data_128=77\n\
     end\n\
     transfers 2000\n\
     + id=800 debit_account_id=1 credit_account_id=2 amount=10 ledger=840 code=1 user_data_64=202601\n\
     + id=801 debit_account_id=2 credit_account_id=1 amount=20 ledger=840 code=1 user_data_64=202602\n\
     + id=802 debit_account_id=1 credit_account_id=2 amount=30 ledger=840 code=2 user_data_64=202602\n\
     end\n\
     query_accounts user_data_128=77 limit=10\n\
     query_accounts user_data_128=77 ledger=840 limit=10\n\
     query_transfers user_data_64=202602 limit=1 flags=reversed\n\
     query_transfers code=1 timestamp_min=2002 limit=10\n\
     lookup_transfers 802 9 800\n%",
    // sent-again
    "accounts 1000\n\
     + id=1 ledger=700 code=10\n\
     + id=2 ledger=700 code=10\n\
     end\n\
     transfers 2000\n\
     + id=5 debit_account_id=1 credit_account_id=2 amount=30 ledger=700 code=1\n\
     end\n\
     transfers 3000\n\
     + id=5 debit_account_id=1 credit_account_id=2 amount=30 ledger=700 code=1\n\
     + id=5 debit_account_id=1 credit_account_id=2 amount=31 ledger=700 code=1\n\
     end\n\
     get_account_transfers account_id=1 limit=10 flags=debits|credits\n%",
    // statement
    "accounts 1000\n\
     + id=1 ledger=840 code=10\n\
     + id=2 ledger=840 code=20\n\
     end\n\
     transfers 2000\n\
     + id=1 debit_account_id=2 credit_account_id=1 amount=300000 user_data_64=202601 ledger=840 code=7\n\
     + id=2 debit_account_id=1 credit_account_id=2 amount=90000 user_data_64=202601 ledger=840 code=8\n\
     + id=3 debit_account_id=2 credit_account_id=1 amount=310000 user_data_64=202602 ledger=840 code=7\n\
     + id=4 debit_account_id=1 credit_account_id=2 amount=90000 user_data_64=202602 ledger=840 code=8\n\
     end\n\
     get_account_transfers account_id=1 limit=100 flags=credits\n\
     get_account_transfers account_id=1 code=8 limit=100 flags=debits|reversed\n\
     get_account_transfers account_id=1 user_data_64=202602 limit=100 flags=debits|credits\n%",
    // two-phase-payment
    "accounts 1000\n\
     + id=1 ledger=840 code=10\n\
     + id=2 ledger=840 code=20\n\
     end\n\
     transfers 2000\n\
     + id=100 debit_account_id=1 credit_account_id=2 amount=5000 ledger=840 code=1 flags=pending\n\
     end\n\
     lookup_accounts 1 2\n\
     transfers 3000\n\
     + id=101 pending_id=100 amount=max flags=post_pending_transfer\n\
     end\n\
     lookup_accounts 1 2\n\
     transfers 4000\n\
     + id=102 debit_account_id=1 credit_account_id=2 amount=700 ledger=840 code=1 flags=pending\n\
     + id=103 pending_id=102 flags=void_pending_transfer\n\
     + id=104 pending_id=102 amount=max flags=post_pending_transfer\n\
     end\n\
     lookup_accounts 1\n"
);

/// How many of them, the first, have a version that is refused memory in turn.
pub const REFUSED_IN_TURN: usize = 4;

/// The script at a place.
pub fn script_at(place: usize) -> Option<&'static str> {
    WORKED.split('%').nth(place)
}

/// How many there are.
pub fn scripts() -> usize {
    WORKED.split('%').count()
}
