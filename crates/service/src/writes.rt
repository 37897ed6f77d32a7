// Writing the operation data of the open block.
ghost use Rattle.std.specs.Prelude.{◌≡◌, true};
ghost use Rattle.std.specs.List.{slice_get};
ghost use Rattle.block.specs.Phases.{phase_number};
ghost use Rattle.service.specs.Replies.{replied, write_replied, last_replied};
ghost use Rattle.service.specs.States.{viewed, head_of, words_so_far};
ghost use Rattle.service.specs.Steps.{finish_parameter, finish, write_step, with_block};
ghost use Rattle.service.specs.Words.{written_data};

use crate::changes::accept;
use crate::kept::Kept;
use crate::link::{Head, Reply, Standing, Target, Transfer};
use crate::service::Service;
use crate::steps::{NOT_OPEN, next_word};
use channel::code::{Code, Digit};
use channel::control::Element;
use channel::write::{check_write, is_locked};
use store::store::Store;
use store::value::check_value;

impl<S: Store> Service<S> {
    // The right "last" of a write to a parameter.
    fn finish_parameter(&mut self, target: Target) -> Result<(), Digit>
        ensures { last_replied (viewed S.Store.blocks self.new) result ≡ finish_parameter (viewed S.Store.blocks self.old) self.old.link.ahs target.place target.head (written_data target.head.attribute.0 target.n self.old.kept) }
    {
        let Target { place, head, n } = target;
        let bytes = self.kept.written(head.attribute, n);
        check_value(&self.store, head.attribute, head.limits, bytes)?;
        accept(&mut self.store, place, bytes);
        self.mark = false;
        Ok(())
    }

    // The right "last" of a write.
    fn finish(&mut self, standing: Standing, target: Target, info: u16) -> Result<(), Digit>
        ensures { last_replied (viewed S.Store.blocks self.new) result ≡ finish (phase_number standing.phase) standing.out (viewed S.Store.blocks self.old) self.old.link.ahs target.place target.head (written_data target.head.attribute.0 target.n self.old.kept) info }
    {
        if target.head.attribute.is_command() {
            self.finish_command(standing, target, info)
        } else {
            self.finish_parameter(target)
        }
    }

    // One word of a write to a block.
    // stays: five parameters, here and below, since a Target can be made only once its n is known.
    fn write_word(
        &mut self,
        standing: Standing,
        place: usize,
        head: Head,
        info: u16,
        last: bool,
    ) -> Result<Reply, Digit>
        ensures { write_replied (viewed S.Store.blocks self.new) result ≡ write_step (phase_number standing.phase) standing.out (viewed S.Store.blocks self.old) self.old.link.ahs place head last info }
    {
        let transfer = self.link.transfer;
        let k = next_word(transfer, Element::Content, true);
        drop_others(&mut self.kept, transfer);
        let n = self.kept.written_length(k, info);
        let locked = is_locked(standing.phase, head.idn, head.attribute);
        check_write(head.keeper, locked, head.attribute, head.most, n, k, last)?;
        self.kept.push(info);
        if last {
            self.finish(standing, Target { place, head, n }, info)?;
            return Ok(Reply::DONE);
        }
        Ok(Reply {
            word: 0,
            goes_on: Some(Transfer {
                element: Element::Content,
                write: true,
                count: k as u16,
            }),
        })
    }

    // A step that writes the operation data of the block at a place.
    pub(crate) fn write(
        &mut self,
        standing: Standing,
        place: usize,
        info: u16,
        last: bool,
    ) -> Result<Reply, Code>
        ensures { replied (viewed S.Store.blocks self.new) result ≡ with_block (viewed S.Store.blocks self.old) self.old.link.ahs (slice_get (S.Store.blocks self.old.store) place) (λ b. write_step (phase_number standing.phase) standing.out (viewed S.Store.blocks self.old) self.old.link.ahs place (head_of b) last info) }
    {
        let head = self.head_at(place).ok_or(NOT_OPEN)?;
        let written = self.write_word(standing, place, head, info, last);
        written.map_err(|digit| Code {
            element: Element::Content,
            digit,
        })
    }
}

// Drops the words of any other transfer than a write that goes on.
fn drop_others(kept: &mut Kept, transfer: Option<Transfer>)
    ensures { kept.new ≡ words_so_far transfer kept.old 7 true }
{
    if !transfer.is_some_and(|t| t.is_on(Element::Content, true)) {
        kept.clear();
    }
}
