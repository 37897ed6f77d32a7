// The commands S-0-0127 and S-0-0128, and the phases that they lead to.
use crate::play::Sent::{Mdt, MissMdt, MissMst, Mst, Shared};
use crate::play::{At, Step, play};
use crate::sample::{ROWS, memory, states};
use refusal::Refusal;
use rows::plan::Plan;
use std::test::Fail;
use table::table::Table;

// From phase 0 to phase 4 and back, twice.
static STEPS: [Step; 91] = [
    Step(Mst(1), Ok(At(0x0000, 0x0000))),
    Step(Mst(2), Ok(At(0x0000, 0x0000))),
    // S-0-0127 fails: its status is 15, and it has to be cancelled first
    Step(Mdt(0x000f, 0x007f), Ok(At(0x0001, 0x0000))),
    Step(Mdt(0x003e, 0x0003), Ok(At(0x0020, 0x0000))),
    Step(Mdt(0x0009, 0x0000), Ok(At(0x0021, 0x000f))),
    Step(Mdt(0x003e, 0x0003), Ok(At(0x0024, 0x7005))),
    Step(Mdt(0x003f, 0x0000), Ok(At(0x0001, 0x0000))),
    Step(Mdt(0x0008, 0x0000), Ok(At(0x0000, 0x0000))),
    // interrupt and restart
    Step(Mdt(0x003f, 0x0001), Ok(At(0x0001, 0x0000))),
    Step(Mdt(0x0008, 0x0000), Ok(At(0x0000, 0x0005))),
    Step(Mdt(0x003f, 0x0003), Ok(At(0x0021, 0x0000))),
    Step(Mdt(0x0008, 0x0000), Ok(At(0x0020, 0x000f))),
    // S-0-0021 names six timings
    Step(Mdt(0x000f, 0x0015), Ok(At(0x0021, 0x0000))),
    Step(Mdt(0x0038, 0x0000), Ok(At(0x0020, 0x000c))),
    Step(Mdt(0x0039, 0x0000), Ok(At(0x0021, 0x0010))),
    Step(Mdt(0x0038, 0x0000), Ok(At(0x0020, 0x0001))),
    Step(Mdt(0x0039, 0x0000), Ok(At(0x0021, 0x0002))),
    Step(Mdt(0x0038, 0x0000), Ok(At(0x0020, 0x0006))),
    Step(Mdt(0x0039, 0x0000), Ok(At(0x0021, 0x0007))),
    Step(Mdt(0x0038, 0x0000), Ok(At(0x0020, 0x0009))),
    Step(Mdt(0x003d, 0x0000), Ok(At(0x0021, 0x000a))),
    // write them
    Step(Mdt(0x000e, 0x0001), Ok(At(0x0020, 0x0000))),
    Step(Mdt(0x003f, 0x07d0), Ok(At(0x0021, 0x0000))),
    Step(Mdt(0x000e, 0x0002), Ok(At(0x0020, 0x0000))),
    Step(Mdt(0x003f, 0x03e8), Ok(At(0x0021, 0x0000))),
    Step(Mdt(0x000e, 0x0006), Ok(At(0x0020, 0x0000))),
    Step(Mdt(0x003f, 0x0064), Ok(At(0x0021, 0x0000))),
    Step(Mdt(0x000e, 0x0007), Ok(At(0x0020, 0x0000))),
    Step(Mdt(0x003f, 0x00c8), Ok(At(0x0021, 0x0000))),
    Step(Mdt(0x000e, 0x0009), Ok(At(0x0020, 0x0000))),
    Step(Mdt(0x003f, 0x0003), Ok(At(0x0021, 0x0000))),
    Step(Mdt(0x000e, 0x000a), Ok(At(0x0020, 0x0000))),
    Step(Mdt(0x003f, 0x0008), Ok(At(0x0021, 0x0000))),
    // cancel and start S-0-0127: it is done
    Step(Mdt(0x000e, 0x007f), Ok(At(0x0020, 0x0000))),
    Step(Mdt(0x003f, 0x0000), Ok(At(0x0001, 0x0000))),
    Step(Mdt(0x003e, 0x0003), Ok(At(0x0020, 0x0000))),
    Step(Mdt(0x0009, 0x0000), Ok(At(0x0021, 0x0003))),
    // phase 3: the answer stays, and the MDT is for all drives
    Step(Mst(3), Ok(At(0x0021, 0x0003))),
    Step(Mdt(0x0038, 0x0000), Err(Refusal::Length)),
    // S-0-0127 belongs to phase 2
    Step(Shared(0x003e, 0x0000), Ok(At(0x0000, 0x0000))),
    Step(Shared(0x003f, 0x0003), Ok(At(0x0005, 0x7005))),
    // S-0-0128 fails, and S-0-0022 names P-0-0049
    Step(Shared(0x000e, 0x0080), Ok(At(0x0000, 0x0000))),
    Step(Shared(0x003f, 0x0003), Ok(At(0x0021, 0x0000))),
    Step(Shared(0x0008, 0x0000), Ok(At(0x0020, 0x000f))),
    Step(Shared(0x000f, 0x0016), Ok(At(0x0021, 0x0000))),
    Step(Shared(0x0038, 0x0000), Ok(At(0x0020, 0x0002))),
    Step(Shared(0x0039, 0x0000), Ok(At(0x0021, 0x0004))),
    Step(Shared(0x003c, 0x0000), Ok(At(0x0020, 0x8031))),
    // write it
    Step(Shared(0x000f, 0x8031), Ok(At(0x0021, 0x0000))),
    Step(Shared(0x0008, 0x0000), Ok(At(0x0020, 0x0100))),
    Step(Shared(0x003b, 0x0007), Ok(At(0x0021, 0x0000))),
    Step(Shared(0x003e, 0x0000), Ok(At(0x0020, 0x0000))),
    Step(Shared(0x0009, 0x0000), Ok(At(0x0021, 0x0000))),
    // cancel and start S-0-0128: it is done
    Step(Shared(0x000e, 0x0080), Ok(At(0x0020, 0x0000))),
    Step(Shared(0x003f, 0x0000), Ok(At(0x0001, 0x0000))),
    Step(Shared(0x003e, 0x0003), Ok(At(0x0020, 0x0000))),
    Step(Shared(0x0009, 0x0000), Ok(At(0x0021, 0x0003))),
    // phase 4: S-0-0014 tells it, and timings stay
    Step(Mst(4), Ok(At(0x0021, 0x0003))),
    Step(Shared(0x000e, 0x000e), Ok(At(0x0020, 0x0000))),
    Step(Shared(0x003d, 0x0000), Ok(At(0x0021, 0x0004))),
    Step(Shared(0x000e, 0x0002), Ok(At(0x0020, 0x0000))),
    Step(Shared(0x003f, 0x03e8), Ok(At(0x0025, 0x7005))),
    // one missed MDT is forgiven, two in a row lead to phase 0
    Step(MissMdt, Ok(At(0x0025, 0x7005))),
    Step(Shared(0x003f, 0x0000), Ok(At(0x0025, 0x7005))),
    Step(MissMdt, Ok(At(0x0025, 0x7005))),
    Step(MissMdt, Err(Refusal::PhaseZero)),
    // up again: the timings are still valid, and no command has ended
    Step(Mst(1), Ok(At(0x0000, 0x0000))),
    Step(Mst(2), Ok(At(0x0000, 0x0000))),
    Step(Mdt(0x000f, 0x0080), Ok(At(0x0001, 0x0000))),
    Step(Mdt(0x0008, 0x0000), Ok(At(0x0000, 0x0000))),
    Step(Mdt(0x000f, 0x007f), Ok(At(0x0001, 0x0000))),
    Step(Mdt(0x003e, 0x0003), Ok(At(0x0020, 0x0000))),
    Step(Mst(3), Ok(At(0x0020, 0x0000))),
    Step(Shared(0x000f, 0x0080), Ok(At(0x0021, 0x0000))),
    Step(Shared(0x003e, 0x0003), Ok(At(0x0020, 0x0000))),
    Step(Mst(4), Ok(At(0x0020, 0x0000))),
    // the same of the MST; a missed MDT between two missed MSTs does not count
    Step(MissMst, Ok(At(0x0020, 0x0000))),
    Step(Mst(4), Ok(At(0x0020, 0x0000))),
    Step(MissMst, Ok(At(0x0020, 0x0000))),
    Step(MissMdt, Ok(At(0x0020, 0x0000))),
    Step(MissMst, Err(Refusal::PhaseZero)),
    // a wrong INFO is noted in S-0-0014, and the phase stays
    Step(Mst(1), Ok(At(0x0000, 0x0000))),
    Step(Mst(2), Ok(At(0x0000, 0x0000))),
    Step(Mdt(0x000f, 0x000e), Ok(At(0x0001, 0x0000))),
    Step(Mdt(0x003c, 0x0000), Ok(At(0x0000, 0x0002))),
    Step(Mst(9), Ok(At(0x0000, 0x0002))),
    Step(Mdt(0x003d, 0x0000), Ok(At(0x0001, 0x0022))),
    // without the pass mark there is no phase 3, and no step down but to 0
    Step(Mst(3), Err(Refusal::PhaseZero)),
    Step(Mst(1), Ok(At(0x0000, 0x0000))),
    Step(Mst(2), Ok(At(0x0000, 0x0000))),
    Step(Mst(1), Err(Refusal::PhaseZero)),
];

#[test]
fn commands_lead_to_phase_4(rt: HostRuntime) -> Result<(), Fail> {
    let plan = Plan::new(&ROWS);
    let mut states = states();
    // S-0-0019 demands P-0-0049, which is invalid
    states[10].length = 2;
    states[16].status = 0x0100;
    let mut bytes = memory();
    play(&rt, Table::new(&plan, &mut states, &mut bytes), &STEPS)
}
