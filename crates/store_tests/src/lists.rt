// Lists: shown at the length they have, replaced within their area, and nothing else changed.
use crate::make::{LONGS, TEXT, WORDS, fixed, has_content, row, shown, state};
use rows::plan::Plan;
use store::store::Store;
use table::table::Table;

#[test]
fn an_empty_list(rt: HostRuntime) {
    let rows = [row(1, WORDS, 4, 0)];
    let plan = Plan::new(&rows);
    let mut states = [state(0)];
    let mut bytes = [7; 4];
    let mut table = Table::new(&plan, &mut states, &mut bytes);
    assert_eq!(rt; table.count(), 1);
    assert!(rt; has_content(&table, 0, &[]));
    assert!(rt; table.replace(0, &[]));
    assert!(rt; table.replace(0, &[1, 2]));
    assert!(rt; has_content(&table, 0, &[1, 2]));
    assert!(rt; table.replace(0, &[]));
    assert!(rt; has_content(&table, 0, &[]));
}

#[test]
fn a_text_of_odd_length(rt: HostRuntime) {
    let rows = [row(1, TEXT, 8, 0), fixed(2, 8)];
    let plan = Plan::new(&rows);
    let mut states = [state(5), state(2)];
    let mut bytes = *b"hello...xy";
    let mut table = Table::new(&plan, &mut states, &mut bytes);
    assert!(rt; has_content(&table, 0, b"hello"));
    assert!(rt; table.replace(0, b"abc"));
    assert!(rt; has_content(&table, 0, b"abc"));
    assert!(rt; has_content(&table, 1, b"xy"));
    assert_eq!(rt; bytes, *b"abclo...xy");
    assert_eq!(rt; states, [state(3), state(2)]);
}

#[test]
fn what_does_not_fit_is_refused(rt: HostRuntime) {
    let rows = [row(1, WORDS, 4, 0), fixed(2, 4)];
    let plan = Plan::new(&rows);
    let mut states = [state(2), state(2)];
    let mut bytes = *b"abcdef";
    let mut table = Table::new(&plan, &mut states, &mut bytes);
    assert!(rt; !table.replace(0, b"123"), "half an item");
    assert!(rt; !table.replace(0, b"123456"), "past the maximum");
    assert!(rt; !table.replace(1, b"1"), "too short");
    assert!(rt; !table.replace(1, b"1234"), "too long");
    assert!(rt; !table.replace(2, b"12"), "no such block");
    assert_eq!(rt; bytes, *b"abcdef");
    assert_eq!(rt; states, [state(2), state(2)]);
}

#[test]
fn spare_bytes_stay(rt: HostRuntime) {
    let rows = [fixed(1, 0), row(2, TEXT, 4, 2)];
    let plan = Plan::new(&rows);
    let mut states = [state(2), state(4)];
    let mut bytes = *b"..wxyzspare";
    let mut table = Table::new(&plan, &mut states, &mut bytes);
    assert!(rt; table.replace(0, b"12"));
    assert!(rt; table.replace(1, b"abcd"));
    assert_eq!(rt; bytes, *b"12abcdspare");
}

#[test]
fn the_longest_list(rt: HostRuntime) {
    let rows = [row(1, TEXT, 1020, 0)];
    let plan = Plan::new(&rows);
    let mut states = [state(0)];
    let mut bytes = [0; 1020];
    let mut table = Table::new(&plan, &mut states, &mut bytes);
    assert!(rt; table.replace(0, &[7; 1020]));
    assert!(rt; has_content(&table, 0, &[7; 1020]));
    assert!(rt; !table.replace(0, &[8; 1021]));
    assert!(rt; bytes == [7; 1020]);
}

#[test]
fn maximums_that_are_not_possible(rt: HostRuntime) {
    let mut bytes = [0; 1024];
    let longest = [row(1, WORDS, 1020, 0)];
    assert_eq!(rt; shown(&longest, &mut [state(0)], &mut bytes), 1);
    let odd = [row(1, TEXT, 1021, 0)];
    assert_eq!(rt; shown(&odd, &mut [state(0)], &mut bytes), 0);
    let even = [row(1, TEXT, 1024, 0)];
    assert_eq!(rt; shown(&even, &mut [state(0)], &mut bytes), 0);
    let half = [row(1, WORDS, 5, 0)];
    assert_eq!(rt; shown(&half, &mut [state(0)], &mut bytes), 0);
    let part = [row(1, LONGS, 1018, 0)];
    assert_eq!(rt; shown(&part, &mut [state(0)], &mut bytes), 0);
}
