// Finding an IDN: by bisection where the rows ascend, else the first from the front.
use crate::make::{fixed, state};
use block::idn::Idn;
use rows::plan::Plan;
use rows::row::Row;
use store::store::Store;
use table::table::Table;

// Where a table of five rows finds an IDN.
fn place<'r>(rows: &'r [Row<'r>; 5], idn: u16) -> Option<usize> {
    let plan = Plan::new(rows);
    let mut states = [state(2); 5];
    let mut bytes = [0; 10];
    let table = Table::new(&plan, &mut states, &mut bytes);
    table.find(Idn(idn))
}

#[test]
fn rows_that_ascend(rt: HostRuntime) {
    let rows = [
        fixed(1, 0),
        fixed(2, 2),
        fixed(17, 4),
        fixed(0x8000, 6),
        fixed(0xffff, 8),
    ];
    assert_eq!(rt; place(&rows, 1), Some(0));
    assert_eq!(rt; place(&rows, 2), Some(1));
    assert_eq!(rt; place(&rows, 17), Some(2));
    assert_eq!(rt; place(&rows, 0x8000), Some(3));
    assert_eq!(rt; place(&rows, 0xffff), Some(4));
    assert_eq!(rt; place(&rows, 0), None);
    assert_eq!(rt; place(&rows, 3), None);
    assert_eq!(rt; place(&rows, 0xfffe), None);
}

#[test]
fn rows_that_do_not_ascend(rt: HostRuntime) {
    let rows = [
        fixed(9, 0),
        fixed(4, 2),
        fixed(9, 4),
        fixed(4, 6),
        fixed(5, 8),
    ];
    assert_eq!(rt; place(&rows, 9), Some(0));
    assert_eq!(rt; place(&rows, 4), Some(1));
    assert_eq!(rt; place(&rows, 5), Some(4));
    assert_eq!(rt; place(&rows, 6), None);
}
