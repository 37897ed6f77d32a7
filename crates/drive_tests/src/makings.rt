// Stores and addresses that no drive is made over.
use crate::play::make;
use crate::sample::{ROWS, memory, states};
use block::idn::Idn;
use rows::plan::Plan;
use table::table::Table;

// Why no drive is made over a store of the first rows: number and IDN.
// stays: numbers and an Option, so that the values that the test expects stay as they were.
fn made(address: u8, count: usize) -> Option<(u8, Option<Idn>)> {
    let n = count.min(17);
    let plan = Plan::new(&ROWS[0..n]);
    let mut states = states();
    let mut bytes = memory();
    let refusal = make(address, Table::new(&plan, &mut states[0..n], &mut bytes)).err()?;
    Some((refusal.number(), refusal.idn()))
}

#[test]
fn makings_refused(rt: HostRuntime) {
    assert_eq!(rt; made(1, 17), None);
    assert_eq!(rt; made(254, 16), None);
    assert_eq!(rt; made(0, 17), Some((1, None)));
    assert_eq!(rt; made(255, 17), Some((1, None)));
    assert_eq!(rt; made(1, 15), Some((5, Some(Idn(128)))));
    assert_eq!(rt; made(1, 0), Some((5, Some(Idn(1)))));
}
