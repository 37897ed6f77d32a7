// Phases: what the entry into a phase does.
ghost use Rattle.std.specs.Prelude.{◌≡◌, ◌+◌};
ghost use Rattle.std.specs.List.{slice_get};
ghost use Rattle.block.specs.Lists.{changed};
ghost use Rattle.block.specs.Phases.{phase_number};
ghost use Rattle.drive.specs.Machines.{view, value_at};
ghost use Rattle.drive.specs.Phases.{faults_in, fault_bit, with_fault, noted, is_command_block, reset_block, commands_reset};

use block::idn::Idn;
use block::idns::INTERFACE_STATUS;
use block::phase::Phase;
use block::value::word_at;
use service::changes::{accept, accept_at};
use std::marker::Model;
use store::scan::block_of;
use store::store::Store;

// The two-byte value of a block, or 0.
pub(crate) fn value_at<S: Store>(store: &S, idn: Idn) -> u16
    ensures { result ≡ value_at (S.Store.blocks store.now) idn.0 }
{
    block_of(store, idn).map_or(0, |view| word_at(view.content, 0))
}

// The faults that the interface status tells, each with its bit.
#[derive(Clone, Copy, PartialEq, Eq, Debug)]
pub enum Fault {
    MstMissed = 8,
    MdtMissed = 16,
    WrongInfo = 32,
    JumpUp = 64,
    StepDown = 128,
    NoPass = 256,
}

impl Fault {
    fn bit(self) -> u16
        ensures value { result ≡ fault_bit self }
    {
        self as u16
    }
}

// The fault bits of the interface status, all below 512.
#[derive(Clone, Copy)]
pub(crate) struct Faults(u16);

impl Model for Faults {
    ghost use Rattle.std.specs.Prelude.{ℕ, ◌<◌};

    ghost Value = { ℕ };

    ghost view = { λ faults. faults.0 };

    ghost invariant = { λ faults. faults.0 < 512 };

    ghost inverse = { λ bits. record { 0 = bits } };
}

impl Faults {
    pub(crate) const NONE: Faults = Faults(0);

    // Those that the interface status tells.
    pub(crate) fn of<S: Store>(store: &S) -> Faults
        ensures { result ≡ faults_in (S.Store.blocks store.now) }
    {
        Faults(value_at(store, INTERFACE_STATUS) / 8 % 64 * 8)
    }

    // One fault more.
    pub(crate) fn with(self, fault: Fault) -> Faults
        ensures { result ≡ with_fault fault self }
    {
        let bit = fault.bit();
        if self.0 / bit % 2 == 1 {
            self
        } else {
            Faults(self.0 + bit)
        }
    }

    // The interface status in a phase.
    pub(crate) fn status(self, phase: Phase) -> u16
        ensures { result ≡ self + phase_number phase }
    {
        self.0 + u16::from(phase.number())
    }
}

// The interface status is written, and so valid.
pub(crate) fn note<S: Store>(store: &mut S, word: u16)
    ensures { S.Store.blocks store.new ≡ noted (S.Store.blocks store.old) word }
{
    accept_at(store, INTERFACE_STATUS, &word.to_le_bytes());
}

fn is_command_at<S: Store>(store: &S, place: usize) -> bool
    ensures { result ≡ is_command_block (slice_get (S.Store.blocks store.now) place) }
{
    store
        .block(place)
        .is_some_and(|view| view.attribute.is_command())
}

// A command at a place is set to data and status 0; another block stays.
fn reset_at<S: Store>(store: &mut S, place: usize)
    ensures { S.Store.blocks store.new ≡ changed (S.Store.blocks store.old) place reset_block }
{
    if is_command_at(store, place) {
        accept(store, place, &[0, 0]);
    }
}

// Every command is set to data and status 0.
// stays: a store lends one block by its place, so the places are what there is to go over while it changes.
pub(crate) fn reset_commands<S: Store>(store: &mut S)
    ensures { S.Store.blocks store.new ≡ commands_reset (S.Store.blocks store.old) }
{
    for place in 0..store.count() {
        reset_at(store, place);
    }
}
