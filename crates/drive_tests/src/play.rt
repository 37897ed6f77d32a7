// Plays a table of steps against a drive: what is sent, and what it shows then.
use crate::mdt_record::record;
use block::idn::Idn;
use drive::drive::Drive;
use refusal::Refusal;
use std::process::Abort;
use std::test::Fail;
use store::store::Store;

#[derive(Clone, Copy)]
pub enum Sent {
    // an MST with its INFO
    Mst(u8),
    // control word and info in an MDT to drive 1 alone
    Mdt(u16, u16),
    // the same in an MDT to all drives: 8 bytes of data, the record at 3
    Shared(u16, u16),
    // an MST that did not come
    MissMst,
    // an MDT that did not come
    MissMdt,
    // the firmware reports two bytes
    Report(u16, [u8; 2]),
}

// The status word and the info of an AT.
// stays: read here as the bench reads it, since a program hands on no functions.
#[derive(Clone, Copy, PartialEq, Eq, Debug)]
pub struct At(pub u16, pub u16);

// What is sent, and then the next AT, or why there is none.
#[derive(Clone, Copy)]
pub struct Step(pub Sent, pub Result<At, Refusal>);

fn send<S: Store>(drive: &mut Drive<S>, sent: Sent) -> Result<(), Refusal> {
    match sent {
        Sent::Mst(info) => drive.mst(&[255, info])?,
        Sent::Mdt(control, info) => {
            let [a, b, c, d] = record(control, info);
            let _ = drive.mdt(&[1, a, b, c, d])?;
        }
        Sent::Shared(control, info) => {
            let [a, b, c, d] = record(control, info);
            let _ = drive.mdt(&[255, 0xaa, 0xaa, a, b, c, d, 0xaa, 0xaa])?;
        }
        Sent::MissMst => drive.miss_mst(),
        Sent::MissMdt => drive.miss_mdt(),
        Sent::Report(idn, bytes) => drive.report(Idn(idn), &bytes)?,
    }
    Ok(())
}

fn exchange<S: Store>(drive: &mut Drive<S>, sent: Sent) -> Result<At, Refusal> {
    send(drive, sent)?;
    let mut at = [0; 5];
    drive.at(0, &mut at)?;
    let [_, a, b, c, d] = at;
    Ok(At(u16::from_le_bytes([a, b]), u16::from_le_bytes([c, d])))
}

fn follow<S: Store>(rt: &impl Abort, drive: &mut Drive<S>, steps: &[Step]) -> Result<(), Fail> {
    for (i, step) in steps.iter().enumerate() {
        let Step(sent, shown) = *step;
        assert_eq!(rt; (i, exchange(drive, sent)), (i, shown));
    }
    Ok(())
}

// A drive over a store, or why none is made.
pub fn make<S: Store + Drop>(address: u8, store: S) -> Result<Drive<S>, Refusal> {
    Drive::make(address, store).map_err(|(refusal, _)| refusal)
}

// Makes drive 1 over a store and plays the steps.
pub fn play<S: Store + Drop>(rt: &impl Abort, store: S, steps: &[Step]) -> Result<(), Fail> {
    let mut drive = make(1, store)?;
    follow(rt, &mut drive, steps)
}
