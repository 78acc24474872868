use super::{WHOLE, fault_of};
use crate::asserts::{assert_at, assert_in};
use crate::tables::{first_word, number, place_and_script, unescaped};
use std::alloc::{AllocError, Global};
use std::process::Abort;
use std::test::Fail;

/// The line and the column of a script's first fault, and the script, with its bytes as `unescaped` reads them.
const FAULTS: &str = r"# A batch without its end: the number of lines plus 1.
2 1 accounts 10\n
2 1 accounts 10
3 1 accounts 10\n\s
5 1 accounts 10\n\n# more\n+ id=1\n
# A missing word: the line's length plus 1.
1 9 accounts
1 9 accounts\n
1 11 accounts\s\s
2 13 \n  transfers \n
# A further word, and what stands first from the left.
1 12 accounts 1 2
1 10 accounts x 2
2 5 accounts 1\nend now
1 12 accounts 1 # now
1 6 pulse
1 8 pulse 1
1 9 pulse 1\s
1 11 pulse 1 2 3
1 7 pulse x
1 7 pulse x y z
1 9 pulse 1 y z
1 9 pulse 1 4294967296
1 7 pulse 18446744073709551616 1
1 9 publish now
1 9 publish # now
2 10 compact\n compact 0
1 21 lookup_accounts 1 2 x 3 y
1 18 lookup_transfers -1
1 18 lookup_transfers raw 00
1 17 lookup_accounts 340282366920938463463374607431768211456
# A fault of a line comes before a missing end.
2 1 accounts 1\ntransfers 1\nend
3 3 accounts 1\n+ id=1\n+ id=x\n
# Words that aren't allowed in their place.
1 1 end
1 1 + id=1
2 1 accounts 1\nget_account_transfers\nend
1 1 raw 00
1 3   storm 1 1
1 1 publishes
1 1 Accounts 1
2 1 accounts 1\npublish\nend
2 1 transfers 1\nlookup_transfers\nend
# Only spaces part words, and only line feeds end lines.
2 1 accounts 1\nend\r\n
1 10 accounts 1\r\nend\n
2 1 # comment\r\n\r
1 1 accounts\t1
# Moments.
1 10 accounts 18446744073709551616
1 10 accounts -1
1 10 accounts +1
1 10 accounts maximum";

/// The same, of events and filters with a word that assigns nothing.
const WORDS: &str = r"2 8 accounts 10\n+ id=1 id=1\nend\n
2 16 accounts 10\n+ id=1 code=1  ID=1\nend\n
2 3 accounts 10\n+ id\nend\n
2 3 accounts 10\n+ raw 00\nend\n
2 3 accounts 10\n+ =1\nend\n
2 3 accounts 10\n+ id=\nend\n
2 3 accounts 10\n+ id=1=2\nend\n
2 3 accounts 10\n+ id=0x1\nend\n
2 3 accounts 10\n+ id=Max\nend\n
2 3 accounts 10\n+ id=340282366920938463463374607431768211456\nend\n
2 3 accounts 10\n+ id=99999999999999999999999999999999999999999999\nend\n
2 3 accounts 10\n+ code=65536\nend\n
2 3 accounts 10\n+ ledger=4294967296\nend\n
2 3 accounts 10\n+ amount=1\nend\n
2 3 accounts 10\n+ code=linked\nend\n
2 3 accounts 10\n+ flags=\nend\n
2 3 accounts 10\n+ flags=|\nend\n
2 3 accounts 10\n+ flags=linked|\nend\n
2 3 accounts 10\n+ flags=|linked\nend\n
2 3 accounts 10\n+ flags=linked|1\nend\n
2 3 accounts 10\n+ flags=max|linked\nend\n
2 3 accounts 10\n+ flags=Linked\nend\n
2 3 accounts 10\n+ flags=pending\nend\n
2 3 accounts 10\n+ flags=65536\nend\n
2 3 transfers 10\n+ reserved=1\nend\n
2 3 transfers 10\n+ flags=closed\nend\n
1 23 get_account_transfers reserved=0
1 31 get_account_transfers limit=1 limit=2
1 36 get_account_transfers account_id=1 raw 00
1 23 get_account_transfers flags=linked
1 23 get_account_transfers ledger=1
1 22 get_account_balances limit=4294967296
1 16 query_accounts account_id=1
1 16 query_accounts flags=debits
1 17 query_transfers reserved=0
1 25 query_transfers limit=1 raw 00";

/// The same, of scripts that have none. The first is empty.
const READ: &str = r"none
none \n
none \s
none #
none   # a comment: accounts | = +\n\n   \n#more
none accounts max\nend
none   accounts   00000000000000000000000000000000000000000000000000018446744073709551615  \n end\s
none accounts 1\n# inside\n\n+\nend\ntransfers 1\n+\nend\nget_account_transfers
none accounts 1\n+ flags=closed|imported|history|linked|linked reserved=4294967295 code=0065535\nend
none transfers 1\n+ flags=balancing_debit|balancing_credit|closing_debit|closing_credit|imported\nend
none get_account_transfers flags=reversed|debits|credits timestamp_min=max timestamp_max=max user_data_32=max
none pulse max max\n  pulse 00 4294967295  \npublish\n compact\s
none lookup_accounts\nlookup_transfers 0 max 0 340282366920938463463374607431768211455";

/// Each script of a table has its fault where its line says. Lines with `#` say something of the next ones.
fn assert_places(rt: &(impl Abort + AllocGlobal), table: &str) -> Result<(), Fail> {
    for line in table.lines() {
        if !line.starts_with('#') {
            let (place, script) = place_and_script(rt, line);
            let script = unescaped(rt.alloc(), script)?;
            let fault = fault_of(rt.alloc(), &script)?;
            assert_in(rt, fault == place, line);
        }
    }
    Ok(())
}

#[test]
fn faults_have_their_place(rt: HostRuntime) -> Result<(), Fail> {
    assert_places(&rt, FAULTS)?;
    assert_places(&rt, WORDS)?;
    assert_places(&rt, READ)
}

#[test]
fn single_bytes_are_faults_but_three(rt: HostRuntime) -> Result<(), Fail> {
    for byte in 0..=255u8 {
        let place = match byte {
            b'\n' | b' ' | b'#' => None,
            _ => Some((1, 1)),
        };
        let fault = fault_of(rt.alloc(), &[byte])?;
        assert_at(&rt, fault == place, "the byte", u64::from(byte));
    }
    Ok(())
}

/// How many zeros are a digit too few, the place of the digits, and the script, whose digits are at `@`.
const RAW_LINES: &str = r"255 2 5 accounts 10\nraw @\nend
255 3 6 transfers 10\n\n raw @\nend
255 1 27 get_account_transfers raw @
255 1 26 get_account_balances raw @\n
127 1 20 query_accounts raw @
127 1 23 query_transfers   raw @";

/// Whether the fault is in the digits or further on, and the digits, whose zeros are at `@`.
const DIGITS: &str = r"none 0@
none @F
none a@\s\s
here
here @
here 00@
here g@
here @G
here 0@\r
here x@ 0
further 0@ 0
further 0@ # 0";

/// The text with another in the place of its `@`.
fn filled(alloc: Global, text: &str, with: &str) -> Result<String, AllocError> {
    match text.split_once('@') {
        Some((before, after)) => format!(in alloc; "{before}{with}{after}"),
        None => String::from_str(alloc, text),
    }
}

/// A script with these digits has its fault where they say.
fn assert_digits(
    rt: &(impl Abort + AllocGlobal),
    line: &str,
    word: &str,
    digits: &str,
) -> Result<(), Fail> {
    let (count, rest) = first_word(line);
    let count = number(rt, count);
    let (place, script) = place_and_script(rt, rest);
    let place = match word {
        "none" => None,
        "here" => place,
        _ => place.map(|(line, column)| (line, column.saturating_add(count).saturating_add(2))),
    };
    let zeros = "0".repeat(rt.alloc(), count as usize)?;
    let digits = filled(rt.alloc(), digits, zeros.as_str())?;
    let script = filled(rt.alloc(), script, digits.as_str())?;
    let script = unescaped(rt.alloc(), script.as_str())?;
    let fault = fault_of(rt.alloc(), &script)?;
    assert_in(rt, fault == place, line);
    Ok(())
}

#[test]
fn bytes_of_another_length_are_faults(rt: HostRuntime) -> Result<(), Fail> {
    for line in RAW_LINES.lines() {
        for case in DIGITS.lines() {
            let (word, digits) = first_word(case);
            assert_digits(&rt, line, word, digits)?;
        }
    }
    Ok(())
}

/// A script that ends anywhere is read up to there, or has a fault in its last line or right after it.
#[test]
fn every_word_cut_short_has_an_answer(rt: HostRuntime) -> Result<(), Fail> {
    let mut line: u64 = 1;
    for (end, byte) in WHOLE.as_bytes().iter().enumerate() {
        let fault = fault_of(rt.alloc(), &WHOLE.as_bytes()[..end])?;
        if let Some((at, _)) = fault {
            let last = matches!(at.checked_sub(line), Some(0 | 1));
            assert_at(&rt, last, "the script up to the byte", end as u64);
        }
        if *byte == b'\n' {
            line = line.saturating_add(1);
        }
    }
    Ok(())
}
