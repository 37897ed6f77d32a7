// The AT in its buffer, and what is handed on of the upper bits.
use crate::play::make;
use crate::sample::{ROWS, memory, states};
use drive::drive::Drive;
use refusal::Refusal;
use rows::plan::Plan;
use std::process::Abort;
use std::test::Fail;
use store::store::Store;
use table::table::Table;

fn answer<S: Store>(rt: &impl Abort, drive: &mut Drive<S>) -> Result<(), Fail> {
    let mut buffer = [9; 7];
    assert_eq!(rt; drive.at(0, &mut buffer), Err(Refusal::PhaseZero));
    assert_eq!(rt; drive.mst(&[255, 1]), Ok(()));
    assert_eq!(rt; drive.mdt(&[7, 0xff, 0xff, 0, 0]), Ok(0xffc0));
    assert_eq!(rt; drive.at(0x1fff, &mut buffer), Ok(()));
    assert_eq!(rt; buffer, [7, 0xc1, 0x1f, 0, 0, 9, 9]);
    let mut short = [9; 4];
    assert_eq!(rt; drive.at(0, &mut short), Err(Refusal::Buffer));
    assert_eq!(rt; short, [9; 4]);
    assert_eq!(rt; Refusal::Buffer.number(), 9);
    assert_eq!(rt; drive.mdt(&[8, 0, 0, 0, 0]), Err(Refusal::Addressee));
    assert_eq!(rt; drive.mdt(&[7, 0, 0, 0]), Err(Refusal::Length));
    assert_eq!(rt; drive.mst(&[7, 2]), Err(Refusal::Addressee));
    Ok(())
}

// Makes drive 7 and reads its AT.
fn answer_over<S: Store + Drop>(rt: &impl Abort, store: S) -> Result<(), Fail> {
    let mut drive = make(7, store)?;
    answer(rt, &mut drive)
}

#[test]
fn answers_in_a_buffer(rt: HostRuntime) -> Result<(), Fail> {
    let plan = Plan::new(&ROWS);
    let mut states = states();
    let mut bytes = memory();
    answer_over(&rt, Table::new(&plan, &mut states, &mut bytes))
}
