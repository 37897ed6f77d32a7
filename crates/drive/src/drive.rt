// The drive: what it holds beside its service channel.
use block::idn::Idn;
use block::phase::Phase;
use service::service::Service;

// The address of a telegram to all drives.
pub const ALL: u8 = 255;

// Which telegrams were missed last: one miss of each kind may be running.
#[derive(Clone, Copy, PartialEq, Eq, Default, Debug)]
pub struct Misses {
    pub mst: bool,
    pub mdt: bool,
}

// stays: no Model, for the reason that stands at Service in service/src/service.rt.
#[derive(Drop)]
pub struct Drive<S> {
    pub(crate) address: u8,
    pub(crate) phase: Phase,
    pub(crate) service: Service<S>,
    pub(crate) misses: Misses,
    // the IDN of the command for which an order is out
    pub(crate) out: Option<Idn>,
}
