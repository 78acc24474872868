//! Tables and what is asked of them: lines of text, of a few rows each or of many by rule, and code for what is refused or changes.

mod lines;
mod making;
mod mutable;
mod places;
mod refusals;
mod searches;
mod words;

use lines::run;
use linked_list_allocator::LocalHeap;
use making::Rows;
use std::process::Abort;
use std::test::Fail;
use tf_mutable::Log;
use tf_records::Refusal;

/// Runs the lines of a text over trees, and then over logs.
fn run_both(rt: &(impl Abort + AllocGlobal), text: &str) -> Result<(), Refusal> {
    let store = LocalHeap::new(rt.alloc(), 1 << 22)?;
    let trees = run::<Rows<&LocalHeap>>(rt, &store, text);
    let logs = run::<Log<u64, &LocalHeap>>(rt, &store, text);
    drop(store);
    trees?;
    logs
}

/// Tables of a few rows.
const SMALL: &str = "\
# the worked example of two small tables, with a tombstone
table 5=gone 7=10
table 5=20 6=30
merge_above 0 1
rows: 5=gone 6=30 7=10
merge_bottom 0 1
rows: 6=30 7=10
# merges of no tables are empty
merge_above
size: 0
merge_bottom
size: 0
# no rows give an empty table
table
size: 0
find 5: none
seek 5: next:end
# find tells values, tombstones and missing keys
table 5=gone 7=10 9=11
size: 3
find 4: none
find 5: gone
find 6: none
find 9: 11
find 10: none
# a seek goes both ways
table 1=3 3=3 5=3 7=3
seek 2: next:3=3 back:7=3 next:5=3 next:end
seek_back 6: back:5=3 back:3=3 back:1=3 back:end
# entries differ in the last row alone
table 1=7 2=7 3=gone
rows: 1=7 2=7 3=gone
table 1=gone 2=gone 3=0
rows: 1=gone 2=gone 3=0
table 1=7 2=7 3=7 4=8
rows: 1=7 2=7 3=7 4=8
merge_above 2
rows: 1=7 2=7 3=7 4=8
find 3: 7
find 4: 8
# tables of tombstones alone
table 2=gone 4=gone
find 2: gone
find 3: none
table 1=gone 2=gone
merge_above 0 1
rows: 1=gone 2=gone 4=gone
merge_bottom 0 1
size: 0
merge_bottom 0
size: 0
# a table has room for its rows alone
table 2=gone 4=7
room: 2 2
table 1=gone 2=gone
room: 2 1
merge_above 0 1
room: 3 3
merge_bottom 1 1
room: 0 0
# nothing is left at the bottom where each row is gone
table 5=gone 6=gone 7=gone
table 5=1 7=2
table 6=3 7=4
merge_bottom 0 1
size: 0
find 5: none
find 0@0: none
seek 0@0: next:end
seek_back 9: back:end
merge_bottom 0 1 2
size: 0
find 5: none
find 0@0: none
seek 0@0: next:end
seek_back 9: back:end
merge_above 0 1 2
rows: 5=gone 6=gone 7=gone
# find and seek at the least and the greatest key
table 0@0=1 340282366920938463463374607431768211455@18446744073709551615=2
find 0@0: 1
find 340282366920938463463374607431768211455@18446744073709551615: 2
find 1: none
seek 340282366920938463463374607431768211455@18446744073709551615: next:340282366920938463463374607431768211455@18446744073709551615=2
seek_back 0@0: back:0@0=1
merge_above 0 0
size: 2
find 340282366920938463463374607431768211455@18446744073709551615: 2
# entries at one timestamp after another are at hand
table 0@7=7 0@8=8 0@9=gone 0@10=10
dated: 7 7 8 gone 10
table 0@18446744073709551614=18446744073709551614 0@18446744073709551615=18446744073709551615
dated: 18446744073709551614 18446744073709551614 18446744073709551615
# they are not where a timestamp is missing, rows have a value or one entry, or there is none
table 0@7=7 0@8=8 0@10=10
dated: none
table 3@7=7 3@8=8 3@9=gone
dated: none
table 0@7=7
dated: none
table
dated: none
# an entry is found as it is stored
table 3=30 5=gone
entry 3: 30
entry 5: gone
entry 4: none
# the lesser of two keys is told
table
lesser 0@6: 1@0";

#[test]
fn small_tables_answer_so(rt: HostRuntime) -> Result<(), Fail> {
    Ok(run_both(&rt, SMALL)?)
}

/// Tables of many rows.
const LARGE: &str = "\
# every key of a large table and of a large merge is found where it is, with wide keys
table wide 1-10001/2
size: 5000
searched wide 0-10001/1: 1-10001/2
turns wide 0-10000/4: 1-10001/2
table wide 1-10001/4
table wide 3-10003/4
merge_bottom 1 2
size: 5000
searched wide 0-10001/1: 1-10001/2
# every key of a large table and of a large merge is found where it is, with few keys
table few 1-10001/2
size: 5000
searched few 0-10001/1: 1-10001/2
turns few 0-10000/4: 1-10001/2
expected few 0-3/1: 1-10001/2
expected few 4999-5002/1: 1-10001/2
expected few 9999-10001/1: 1-10001/2
table few 1-10001/4
table few 3-10003/4
merge_bottom 1 2
size: 5000
searched few 0-10001/1: 1-10001/2
# every key of a large table and of a large merge is found where it is, with far keys
table far 1-10001/2
size: 5000
searched far 0-10001/1: 1-10001/2
turns far 0-10000/4: 1-10001/2
table far 1-10001/4
table far 3-10003/4
merge_bottom 1 2
size: 5000
searched far 0-10001/1: 1-10001/2
# every key of a large table and of a large merge is found where it is, with near keys
table near 1-10001/2
size: 5000
searched near 0-10001/1: 1-10001/2
turns near 0-10000/4: 1-10001/2
table near 1-10001/4
table near 3-10003/4
merge_bottom 1 2
size: 5000
searched near 0-10001/1: 1-10001/2";

#[test]
fn large_tables_are_searched_right(rt: HostRuntime) -> Result<(), Fail> {
    let store = LocalHeap::new(rt.alloc(), 1 << 22)?;
    let outcome = run::<Log<u64, &LocalHeap>>(&rt, &store, LARGE);
    drop(store);
    Ok(outcome?)
}

/// Tables of more rows than a few.
const OTHERS: &str = "\
# searches in several tables take turns
table wide 1-10001/2
table wide 1-10001/1000
table
turns_of_all wide: right
# a filter knows most values that no key has
table apart 0-600/1
taken_below apart 600-1200/1: 30
# cursors from both ends seek the key of every place, every second, and so on
table sevens 0-300/3
cursors sevens 0-300/1: 0-300/3
cursors sevens 0-300/2: 0-300/3
cursors sevens 0-300/5: 0-300/3
cursors sevens 0-300/40: 0-300/3
cursors sevens 0-300/200: 0-300/3
range 1@9903 2@9804: next:1@9905=12 back:2@9804=18 next:2@9801=gone next:end back:end
range 2@9804 1@9903: next:end
span: 5800 10006
merge_bottom 0 0
span: 5800 10006
merge_bottom
span: none
# rows without a value are found by timestamp
table bare 1000-1100/1 1150-1200/1
found bare 990-1125/1: 1000-1100/1
found bare 1125-1210/1: 1150-1200/1
# the first key above another is that of the next row, in key order
table sevens 1-901/3
size: 300
rows: sevens 1-901/3
firsts_above sevens 0-900/1: 1-901/3
firsts sevens 0-900/1: sevens 1-901/3
# the first key above another is that of the next row, in another order
table sevens 1-901/111
size: 300
rows: sevens 1-901/3
firsts_above sevens 0-900/1: 1-901/3
firsts sevens 0-900/1: sevens 1-901/111
# merges of one to ten tables have the newest rows
table layers 0-120/2
table layers 0-120/3
table layers 0-120/4
table layers 0-120/5
table layers 0-120/6
table layers 0-126/7
table layers 0-120/8
table layers 0-126/9
table layers 0-120/10
table layers 0-121/11
merge_above 0
newest_above layers 0-120/1: 1
merge_bottom 0
newest_bottom layers 0-120/1: 1
merge_above 0 1
newest_above layers 0-120/1: 2
merge_bottom 0 1
newest_bottom layers 0-120/1: 2
merge_above 0 1 2
newest_above layers 0-120/1: 3
merge_bottom 0 1 2
newest_bottom layers 0-120/1: 3
merge_above 0 1 2 3
newest_above layers 0-120/1: 4
merge_bottom 0 1 2 3
newest_bottom layers 0-120/1: 4
merge_above 0 1 2 3 4 5 6 7
newest_above layers 0-120/1: 8
merge_bottom 0 1 2 3 4 5 6 7
newest_bottom layers 0-120/1: 8
merge_above 0 1 2 3 4 5 6 7 8
newest_above layers 0-120/1: 9
merge_bottom 0 1 2 3 4 5 6 7 8
newest_bottom layers 0-120/1: 9
merge_above 0 1 2 3 4 5 6 7 8 9
newest_above layers 0-120/1: 10
merge_bottom 0 1 2 3 4 5 6 7 8 9
newest_bottom layers 0-120/1: 10";

#[test]
fn tables_of_many_rows_answer_so(rt: HostRuntime) -> Result<(), Fail> {
    Ok(run_both(&rt, OTHERS)?)
}
