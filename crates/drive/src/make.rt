// Making a drive over a store that passed the check.
ghost use Rattle.std.specs.Prelude.{◌≡◌};
ghost use Rattle.drive.specs.Machines.{view};
ghost use Rattle.drive.specs.Making.{Made};

use crate::drive::{Drive, Misses};
use block::phase::Phase;
use making::check;
use refusal::Refusal;
use service::kept::Kept;
use service::link::Link;
use service::service::Service;
use store::store::Store;

impl<S: Store> Drive<S> {
    // Makes a drive, or hands the store back with the refusal.
    pub fn make(address: u8, store: S) -> Result<Drive<S>, (Refusal, S)>
        ensures { Made S.Store.blocks address store result }
    {
        if let Err(refusal) = check(address, &store) {
            return Err((refusal, store));
        }
        let service = Service {
            store,
            mark: false,
            link: Link::CLOSED,
            kept: Kept::new(),
        };
        Ok(Drive {
            address,
            phase: Phase::Zero,
            service,
            misses: Misses::default(),
            out: None,
        })
    }
}
