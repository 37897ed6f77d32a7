// Entering a phase, the MST, and misses.
ghost use Rattle.std.specs.Prelude.{◌≡◌, cond, Bool};
ghost use Rattle.service.specs.States.{viewed};
ghost use Rattle.drive.specs.Machines.{view};
ghost use Rattle.drive.specs.Phases.{service_entering, entering, faulted, fault_noted, mst_miss, mdt_miss, raised, mst_taken, with_misses};

use crate::drive::{Drive, Misses};
use crate::phases::{Fault, Faults, note, reset_commands};
use block::phase::Phase;
use service::link::Link;
use service::service::Service;
use std::cmp::Ordering;
use store::store::Store;

// What the entry into a phase does to the service channel.
fn enter_service<S: Store>(service: &mut Service<S>, phase: Phase, faults: Faults)
    ensures { viewed S.Store.blocks service.new ≡ service_entering (viewed S.Store.blocks service.old) phase faults }
{
    if phase == Phase::Zero {
        reset_commands(&mut service.store);
    }
    if phase <= Phase::Two {
        service.link = Link::CLOSED;
        service.kept.clear();
    }
    service.mark = false;
    note(&mut service.store, faults.status(phase));
}

impl<S: Store> Drive<S> {
    // Enters a phase: misses are forgotten, and the channel follows the phase.
    fn enter(&mut self, phase: Phase, faults: Faults)
        ensures { view S.Store.blocks self.new ≡ entering (view S.Store.blocks self.old) phase faults }
    {
        enter_service(&mut self.service, phase, faults);
        self.phase = phase;
        self.misses = Misses::default();
    }

    // A fault leads to phase 0.
    fn fault(&mut self, fault: Fault)
        ensures { view S.Store.blocks self.new ≡ faulted (view S.Store.blocks self.old) fault }
    {
        let faults = Faults::of(&self.service.store).with(fault);
        self.enter(Phase::Zero, faults);
    }

    // A fault is noted, and the phase is kept.
    fn note_fault(&mut self, fault: Fault)
        ensures { view S.Store.blocks self.new ≡ fault_noted (view S.Store.blocks self.old) fault }
    {
        let faults = Faults::of(&self.service.store).with(fault);
        note(&mut self.service.store, faults.status(self.phase));
    }

    // A telegram did not come: the first miss is kept in mind, and the second running is a fault.
    fn miss(&mut self, again: bool, misses: Misses, fault: Fault)
        ensures { view S.Store.blocks self.new ≡ cond again (faulted (view S.Store.blocks self.old) fault) (with_misses (view S.Store.blocks self.old) misses) }
    {
        if again {
            self.fault(fault);
        } else {
            self.misses = misses;
        }
    }

    // The link tells that an MST did not come.
    pub fn miss_mst(&mut self)
        ensures { view S.Store.blocks self.new ≡ mst_miss (view S.Store.blocks self.old) }
    {
        if self.phase >= Phase::Three {
            let misses = Misses {
                mst: true,
                ..self.misses
            };
            self.miss(self.misses.mst, misses, Fault::MstMissed);
        }
    }

    // The link tells that an MDT did not come.
    pub fn miss_mdt(&mut self)
        ensures { view S.Store.blocks self.new ≡ mdt_miss (view S.Store.blocks self.old) }
    {
        if self.phase == Phase::Four {
            let misses = Misses {
                mdt: true,
                ..self.misses
            };
            self.miss(self.misses.mdt, misses, Fault::MdtMissed);
        }
    }

    // Raises the phase by one: 3 and 4 need the pass mark.
    fn raise(&mut self)
        ensures { view S.Store.blocks self.new ≡ raised (view S.Store.blocks self.old) self.old.phase }
    {
        let faults = Faults::of(&self.service.store);
        match self.phase {
            Phase::Zero => self.enter(Phase::One, Faults::NONE),
            Phase::One => self.enter(Phase::Two, faults),
            Phase::Two if self.service.mark => self.enter(Phase::Three, faults),
            Phase::Three if self.service.mark => self.enter(Phase::Four, faults),
            Phase::Two | Phase::Three => self.fault(Fault::NoPass),
            Phase::Four => (),
        }
    }

    // An MST that was accepted, with its INFO byte.
    pub(crate) fn take_info(&mut self, info: u8)
        ensures { view S.Store.blocks self.new ≡ mst_taken (view S.Store.blocks self.old) info }
    {
        let Ok(phase) = Phase::try_from(info) else {
            self.note_fault(Fault::WrongInfo);
            self.miss_mst();
            return;
        };
        // stays: INFO is compared as a number below, since the next phase is a sum and an enum has none.
        match phase.cmp(&self.phase) {
            Ordering::Equal => self.misses.mst = false,
            Ordering::Less if phase == Phase::Zero => {
                let faults = Faults::of(&self.service.store);
                self.enter(Phase::Zero, faults);
            }
            Ordering::Less => self.fault(Fault::StepDown),
            Ordering::Greater if info == self.phase.number() + 1 => self.raise(),
            Ordering::Greater => self.fault(Fault::JumpUp),
        }
    }
}
