// The telegrams of the master: MST and MDT.
ghost use Rattle.std.specs.Prelude.{◌≡◌};
ghost use Rattle.block.specs.Values.{ok_unless};
ghost use Rattle.channel.specs.Controls.{upper_bits};
ghost use Rattle.drive.specs.Machines.{view};
ghost use Rattle.drive.specs.Telegrams.{mst_answer, mst_after, is_shared, mdt_size, mdt_address, record_start, mdt_refusal, mdt_taken, record_of, control_of, mdt_answer, mdt_after};

use crate::drive::{ALL, Drive};
use crate::phases::value_at;
use block::idns::{MDT_LENGTH, RECORD_POSITION};
use block::phase::Phase;
use block::value::word_at;
use channel::control::Control;
use refusal::Refusal;
use store::store::Store;

impl<S: Store> Drive<S> {
    // The master's synchronization telegram: the address of all and INFO.
    pub fn mst(&mut self, telegram: &[u8]) -> Result<(), Refusal>
        ensures answer { result ≡ mst_answer telegram.now }
        ensures after { view S.Store.blocks self.new ≡ mst_after (view S.Store.blocks self.old) telegram.now }
    {
        let [address, info] = *telegram else {
            return Err(Refusal::Length);
        };
        if address != ALL {
            return Err(Refusal::Addressee);
        }
        self.take_info(info);
        Ok(())
    }

    // Whether one MDT serves all drives.
    fn is_shared(&self) -> bool
        ensures { result ≡ is_shared (view S.Store.blocks self.now) }
    {
        self.phase >= Phase::Three
    }

    // The bytes that an MDT must have now.
    pub fn mdt_size(&self) -> usize
        ensures { result ≡ mdt_size (view S.Store.blocks self.now) }
    {
        if self.is_shared() {
            1 + usize::from(value_at(&self.service.store, MDT_LENGTH))
        } else {
            5
        }
    }

    // The address that an MDT must have now.
    pub fn mdt_address(&self) -> u8
        ensures { result ≡ mdt_address (view S.Store.blocks self.now) }
    {
        if self.is_shared() { ALL } else { self.address }
    }

    // Where the drive's record begins in an MDT.
    pub fn record_start(&self) -> usize
        ensures { result ≡ record_start (view S.Store.blocks self.now) }
    {
        if self.is_shared() {
            usize::from(value_at(&self.service.store, RECORD_POSITION))
        } else {
            1
        }
    }

    // Whether an MDT is taken, or why it is refused.
    fn check_mdt(&self, telegram: &[u8]) -> Result<(), Refusal>
        ensures { result ≡ ok_unless (mdt_refusal (view S.Store.blocks self.now) telegram.now) }
    {
        if self.phase == Phase::Zero {
            return Err(Refusal::PhaseZero);
        }
        if telegram.len() != self.mdt_size() {
            return Err(Refusal::Length);
        }
        if telegram.first() != Some(&self.mdt_address()) {
            return Err(Refusal::Addressee);
        }
        Ok(())
    }

    // The drive's record in an MDT, which is empty where it would begin past the end.
    fn record_in<'a>(&self, telegram: &'a [u8]) -> &'a [u8]
        ensures { result.now ≡ record_of (view S.Store.blocks self.now) telegram.now }
    {
        telegram.get(self.record_start()..).unwrap_or(&[])
    }

    // The record of an MDT: a step, a repeat, or in phase 1 the handshake alone.
    fn take_record(&mut self, part: &[u8]) -> u16
        ensures answer { result ≡ upper_bits (control_of part.now) }
        ensures after { view S.Store.blocks self.new ≡ mdt_taken (view S.Store.blocks self.old) part.now }
    {
        let control = Control(word_at(part, 0));
        let info = word_at(part, 2);
        self.misses.mdt = false;
        if self.phase == Phase::One {
            self.service.link.ahs = control.handshake();
        } else if control.handshake() != self.service.link.ahs {
            self.service.step(self.phase, self.out, control, info);
        }
        control.upper_bits()
    }

    // The master's data telegram; the answer is what the channel hands on of the control word.
    pub fn mdt(&mut self, telegram: &[u8]) -> Result<u16, Refusal>
        ensures answer { result ≡ mdt_answer (view S.Store.blocks self.old) telegram.now }
        ensures after { view S.Store.blocks self.new ≡ mdt_after (view S.Store.blocks self.old) telegram.now }
    {
        self.check_mdt(telegram)?;
        let part = self.record_in(telegram);
        Ok(self.take_record(part))
    }
}
