// The AT, the drive's telegram.
ghost use Rattle.std.specs.Prelude.{◌≡◌, length};
ghost use Rattle.drive.specs.Machines.{view};
ghost use Rattle.drive.specs.Answers.{any_ended, status_word, at_bytes, at_answer, at_after};

use crate::drive::Drive;
use block::phase::Phase;
use channel::command::has_ended;
use channel::control::Control;
use refusal::Refusal;
use store::scan::Views;
use store::store::Store;

// Whether some command has ended.
fn any_ended<S: Store>(store: &S) -> bool
    ensures { result ≡ any_ended (S.Store.blocks store.now) }
{
    Views::of(store).any(|view| view.attribute.is_command() && has_ended(view.status))
}

impl<S: Store> Drive<S> {
    fn status_word(&self, bits: u16) -> u16
        ensures { result ≡ status_word (view S.Store.blocks self.now) bits }
    {
        let ahs = u16::from(self.service.link.ahs);
        let error = u16::from(self.service.link.answer.is_err());
        let ended = u16::from(any_ended(&self.service.store));
        Control(bits).upper_bits() + ahs + 4 * error + 32 * ended
    }

    fn at_bytes(&self, bits: u16) -> [u8; 5]
        ensures { result ≡ at_bytes (view S.Store.blocks self.now) bits }
    {
        let [status_low, status_high] = self.status_word(bits).to_le_bytes();
        let [info_low, info_high] = self.service.link.info().to_le_bytes();
        [self.address, status_low, status_high, info_low, info_high]
    }

    // Puts the AT into the first five bytes of a buffer; it changes nothing in the drive.
    pub fn at(&self, bits: u16, buffer: &mut [u8]) -> Result<(), Refusal>
        ensures answer { result ≡ at_answer (view S.Store.blocks self.now) (length buffer.old) }
        ensures after { buffer.new ≡ at_after (view S.Store.blocks self.now) bits buffer.old }
    {
        if self.phase == Phase::Zero {
            return Err(Refusal::PhaseZero);
        }
        let Some(head) = buffer.first_chunk_mut() else {
            return Err(Refusal::Buffer);
        };
        *head = self.at_bytes(bits);
        Ok(())
    }
}
