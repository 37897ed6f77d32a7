// The check of a value: limits by the block's own type, and lists of IDNs.
use crate::make::{IDNS, SIGNED, UNSIGNED, fixed, row, shown, state};
use block::attribute::Attribute;
use block::limits::Limits;
use block::value::ValueFault;
use rows::plan::Plan;
use rows::row::Row;
use std::test::Fail;
use store::store::Store;
use store::value::check_value;
use table::table::Table;

fn limited(attribute: Attribute, lower: u32, upper: u32) -> Row<'static> {
    Row {
        limits: Some(Limits { lower, upper }),
        ..row(1, attribute, 0, 0)
    }
}

// A store that should have a block has none.
#[derive(Clone, Copy, Debug)]
struct NoBlock;

// What the check of a value says for the first block of a store.
// stays: the fault as an Option, here and below, so that the values that the tests expect stay as they were.
fn first_fault<S: Store>(store: &S, bytes: &[u8]) -> Result<Option<ValueFault>, NoBlock> {
    let view = store.block(0).ok_or(NoBlock)?;
    Ok(check_value(store, view.attribute, view.limits, bytes).err())
}

// What the check of a pattern says in a store of this row.
fn fault(row: Row<'static>, pattern: u16) -> Result<Option<ValueFault>, NoBlock> {
    let rows = [row];
    let plan = Plan::new(&rows);
    let mut states = [state(2)];
    let mut bytes = [0; 2];
    let table = Table::new(&plan, &mut states, &mut bytes);
    first_fault(&table, &pattern.to_le_bytes())
}

#[test]
fn signed_limits(rt: HostRuntime) -> Result<(), Fail> {
    let row = limited(SIGNED, 0xfff6, 10);
    assert_eq!(rt; fault(row, 0xfff6)?, None, "-10");
    assert_eq!(rt; fault(row, 0)?, None, "0");
    assert_eq!(rt; fault(row, 10)?, None, "10");
    assert_eq!(rt; fault(row, 0xfff5)?, Some(ValueFault::TooLow), "-11");
    assert_eq!(rt; fault(row, 0x8000)?, Some(ValueFault::TooLow), "the least");
    assert_eq!(rt; fault(row, 11)?, Some(ValueFault::TooHigh), "11");
    assert_eq!(rt; fault(row, 0x7fff)?, Some(ValueFault::TooHigh), "the most");
    Ok(())
}

#[test]
fn unsigned_limits(rt: HostRuntime) -> Result<(), Fail> {
    let row = limited(UNSIGNED, 10, 0xfff6);
    assert_eq!(rt; fault(row, 10)?, None);
    assert_eq!(rt; fault(row, 0x8000)?, None);
    assert_eq!(rt; fault(row, 0xfff6)?, None);
    assert_eq!(rt; fault(row, 9)?, Some(ValueFault::TooLow));
    assert_eq!(rt; fault(row, 0xfff7)?, Some(ValueFault::TooHigh));
    Ok(())
}

#[test]
fn limits_in_the_wrong_order(rt: HostRuntime) {
    let below = [limited(SIGNED, 0xfff6, 10)];
    let above = [limited(UNSIGNED, 0xfff6, 10)];
    assert_eq!(rt; shown(&below, &mut [state(2)], &mut [0; 2]), 1);
    assert_eq!(rt; shown(&above, &mut [state(2)], &mut [0; 2]), 0);
}

// What the check of a list of IDNs says in a store of the blocks 1, 2 and 3.
fn list_fault(bytes: &[u8]) -> Option<ValueFault> {
    let rows = [fixed(1, 0), fixed(2, 2), row(3, IDNS, 8, 4)];
    let plan = Plan::new(&rows);
    let mut states = [state(2), state(2), state(0)];
    let mut memory = [0; 12];
    let table = Table::new(&plan, &mut states, &mut memory);
    check_value(&table, IDNS, None, bytes).err()
}

#[test]
fn lists_of_idns(rt: HostRuntime) {
    assert_eq!(rt; list_fault(&[]), None);
    assert_eq!(rt; list_fault(&[0, 0, 1, 0, 2, 0, 3, 0]), None);
    assert_eq!(rt;
        list_fault(&[4, 0, 1, 0, 2, 0, 3, 0]),
        Some(ValueFault::UnknownIdn)
    );
    assert_eq!(rt;
        list_fault(&[0, 0, 1, 0, 2, 0, 4, 0]),
        Some(ValueFault::UnknownIdn)
    );
    assert_eq!(rt;
        list_fault(&[1, 1]),
        Some(ValueFault::UnknownIdn),
        "the high byte counts"
    );
}
