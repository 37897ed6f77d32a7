// The elements of a block, read and written word by word in phase 2.
use crate::play::Sent::{Mdt, Mst};
use crate::play::{At, Step, play};
use crate::sample::{ROWS, memory, states};
use refusal::Refusal;
use rows::plan::Plan;
use std::test::Fail;
use table::table::Table;

// Phase 2, step by step.
static STEPS: [Step; 42] = [
    // no MDT and no AT in phase 0
    Step(Mst(0), Err(Refusal::PhaseZero)),
    Step(Mdt(0x0001, 0x0000), Err(Refusal::PhaseZero)),
    Step(Mst(1), Ok(At(0x0000, 0x0000))),
    Step(Mst(2), Ok(At(0x0000, 0x0000))),
    // open P-0-0049
    Step(Mdt(0x000f, 0x8031), Ok(At(0x0001, 0x0000))),
    // its attribute
    Step(Mdt(0x0018, 0x0000), Ok(At(0x0000, 0x0001))),
    Step(Mdt(0x001d, 0x0000), Ok(At(0x0001, 0x0022))),
    // its name: 6 bytes of at most 60, Torque
    Step(Mdt(0x0010, 0x0000), Ok(At(0x0000, 0x0006))),
    Step(Mdt(0x0011, 0x0000), Ok(At(0x0001, 0x003c))),
    Step(Mdt(0x0010, 0x0000), Ok(At(0x0000, 0x6f54))),
    Step(Mdt(0x0011, 0x0000), Ok(At(0x0001, 0x7172))),
    Step(Mdt(0x0014, 0x0000), Ok(At(0x0000, 0x6575))),
    // its unit: 2 bytes of at most 12, Nm
    Step(Mdt(0x0021, 0x0000), Ok(At(0x0001, 0x0002))),
    Step(Mdt(0x0020, 0x0000), Ok(At(0x0000, 0x000c))),
    Step(Mdt(0x0025, 0x0000), Ok(At(0x0001, 0x6d4e))),
    // its data, -1000
    Step(Mdt(0x0038, 0x0000), Ok(At(0x0000, 0xfc18))),
    Step(Mdt(0x003d, 0x0000), Ok(At(0x0001, 0xffff))),
    // its limits, -100000 and 100000
    Step(Mdt(0x0028, 0x0000), Ok(At(0x0000, 0x7960))),
    Step(Mdt(0x002d, 0x0000), Ok(At(0x0001, 0xfffe))),
    Step(Mdt(0x0030, 0x0000), Ok(At(0x0000, 0x86a0))),
    Step(Mdt(0x0035, 0x0000), Ok(At(0x0001, 0x0001))),
    // write 70000 and read it back
    Step(Mdt(0x003a, 0x1170), Ok(At(0x0000, 0x0000))),
    Step(Mdt(0x003f, 0x0001), Ok(At(0x0001, 0x0000))),
    Step(Mdt(0x0038, 0x0000), Ok(At(0x0000, 0x1170))),
    Step(Mdt(0x003d, 0x0000), Ok(At(0x0001, 0x0001))),
    // the handshake stays: the answer is shown again
    Step(Mdt(0x0039, 0x0000), Ok(At(0x0001, 0x0001))),
    // 100001 is too high, -100001 too low, and the data stay
    Step(Mdt(0x003a, 0x86a1), Ok(At(0x0000, 0x0000))),
    Step(Mdt(0x003f, 0x0001), Ok(At(0x0005, 0x7007))),
    Step(Mdt(0x003a, 0x795f), Ok(At(0x0000, 0x0000))),
    Step(Mdt(0x003f, 0xfffe), Ok(At(0x0005, 0x7006))),
    Step(Mdt(0x0038, 0x0000), Ok(At(0x0000, 0x1170))),
    Step(Mdt(0x003d, 0x0000), Ok(At(0x0001, 0x0001))),
    // "last" too early, a word too many, and a name that is not to be written
    Step(Mdt(0x0034, 0x0000), Ok(At(0x0004, 0x6002))),
    Step(Mdt(0x0039, 0x0000), Ok(At(0x0001, 0x1170))),
    Step(Mdt(0x0038, 0x0000), Ok(At(0x0000, 0x0001))),
    Step(Mdt(0x0039, 0x0000), Ok(At(0x0005, 0x7003))),
    Step(Mdt(0x0016, 0x0000), Ok(At(0x0004, 0x2004))),
    // S-0-0001 has no name
    Step(Mdt(0x000f, 0x0001), Ok(At(0x0001, 0x0000))),
    Step(Mdt(0x0010, 0x0000), Ok(At(0x0004, 0x2001))),
    // close; then there is nothing to read
    Step(Mdt(0x0001, 0x0000), Ok(At(0x0001, 0x0000))),
    Step(Mdt(0x0038, 0x0000), Ok(At(0x0004, 0x0001))),
    // an IDN that the store lacks
    Step(Mdt(0x000f, 0x8032), Ok(At(0x0005, 0x1001))),
];

// stays: each test makes the memory of its own drive, here and in reports, as two of the others change it first.
#[test]
fn reads_and_writes_elements(rt: HostRuntime) -> Result<(), Fail> {
    let plan = Plan::new(&ROWS);
    let mut states = states();
    let mut bytes = memory();
    play(&rt, Table::new(&plan, &mut states, &mut bytes), &STEPS)
}
