// Reports of the firmware, and the text that follows S-0-0011.
use crate::play::Sent::{Mdt, Mst, Report};
use crate::play::{At, Step, make, play};
use crate::sample::{ROWS, memory, states};
use block::idn::Idn;
use refusal::{Cause, Refusal};
use rows::plan::Plan;
use std::test::Fail;
use store::store::Store;
use table::table::Table;

// Reports between the steps of the channel.
static STEPS: [Step; 26] = [
    // in phase 0 a timing may be reported within its limits
    Step(Report(5, [0xff, 0xff]), Err(Refusal::Value(Cause::TooHigh))),
    Step(Report(5, [10, 0]), Err(Refusal::PhaseZero)),
    Step(Mst(1), Ok(At(0x0000, 0x0000))),
    Step(Mst(2), Ok(At(0x0000, 0x0000))),
    // S-0-0005 has the reported 10
    Step(Mdt(0x000f, 0x0005), Ok(At(0x0001, 0x0000))),
    Step(Mdt(0x003c, 0x0000), Ok(At(0x0000, 0x000a))),
    // refused: no such block, not the drive's, a timing
    Step(Report(12, [0, 0]), Err(Refusal::Unknown)),
    Step(Report(1, [62, 0]), Err(Refusal::Keeper)),
    Step(Report(5, [9, 0]), Err(Refusal::Timing)),
    Step(Mst(2), Ok(At(0x0000, 0x000a))),
    // bit 3 of S-0-0011 makes the text C1D 03 of at most 32 bytes
    Step(Report(11, [0x08, 0x00]), Ok(At(0x0000, 0x000a))),
    Step(Mdt(0x000f, 0x005f), Ok(At(0x0001, 0x0000))),
    Step(Mdt(0x0038, 0x0000), Ok(At(0x0000, 0x0006))),
    Step(Mdt(0x0039, 0x0000), Ok(At(0x0001, 0x0020))),
    Step(Mdt(0x0038, 0x0000), Ok(At(0x0000, 0x3143))),
    Step(Mdt(0x0039, 0x0000), Ok(At(0x0001, 0x2044))),
    Step(Mdt(0x003c, 0x0000), Ok(At(0x0000, 0x3330))),
    // the lowest set bit counts
    Step(Report(11, [0x00, 0xc0]), Ok(At(0x0000, 0x3330))),
    Step(Mdt(0x0039, 0x0000), Ok(At(0x0001, 0x0006))),
    Step(Mdt(0x0038, 0x0000), Ok(At(0x0000, 0x0020))),
    Step(Mdt(0x0039, 0x0000), Ok(At(0x0001, 0x3143))),
    Step(Mdt(0x0038, 0x0000), Ok(At(0x0000, 0x2044))),
    Step(Mdt(0x003d, 0x0000), Ok(At(0x0001, 0x3431))),
    // no bit, no text
    Step(Report(11, [0x00, 0x00]), Ok(At(0x0001, 0x3431))),
    Step(Mdt(0x0038, 0x0000), Ok(At(0x0000, 0x0000))),
    Step(Mdt(0x003d, 0x0000), Ok(At(0x0001, 0x0020))),
];

#[test]
fn reports_set_the_diagnostic_text(rt: HostRuntime) -> Result<(), Fail> {
    let plan = Plan::new(&ROWS);
    let mut states = states();
    let mut bytes = memory();
    play(&rt, Table::new(&plan, &mut states, &mut bytes), &STEPS)
}

// What a drive over a store says to a report.
fn report_over<S: Store + Drop>(store: S, idn: u16, bytes: &[u8]) -> Result<(), Refusal> {
    make(1, store)?.report(Idn(idn), bytes)
}

// Why a report is refused.
fn report(idn: u16, bytes: &[u8]) -> Option<Refusal> {
    let plan = Plan::new(&ROWS);
    let mut states = states();
    let mut memory = memory();
    report_over(Table::new(&plan, &mut states, &mut memory), idn, bytes).err()
}

#[test]
fn reports_of_a_wrong_length(rt: HostRuntime) {
    assert_eq!(rt; report(11, &[8]), Some(Refusal::Value(Cause::TooShort)));
    assert_eq!(rt;
        report(11, &[8, 0, 0]),
        Some(Refusal::Value(Cause::TooLong))
    );
    assert_eq!(rt; report(11, &[8, 0]), None);
    assert_eq!(rt; Refusal::Unknown.number(), 10);
    assert_eq!(rt; Refusal::Keeper.number(), 11);
    assert_eq!(rt; Refusal::Value(Cause::TooShort).number(), 13);
    assert_eq!(rt; Cause::TooShort.number(), 2);
    assert_eq!(rt; Cause::TooLong.number(), 3);
}
