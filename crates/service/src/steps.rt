// One step of the service channel.
ghost use Rattle.std.specs.Prelude.{◌≡◌, ◌≤◌, false, length, Err};
ghost use Rattle.std.specs.List.{slice_get};
ghost use Rattle.std.specs.Option.{option_map};
ghost use Rattle.block.specs.Blocks.{seen};
ghost use Rattle.block.specs.Phases.{phase_number};
ghost use Rattle.channel.specs.Controls.{is_write, is_last, element_of, element_number, element_named};
ghost use Rattle.channel.specs.Layouts.{shape_of};
ghost use Rattle.service.specs.Replies.{replied};
ghost use Rattle.service.specs.States.{viewed, head_of, next_word};
ghost use Rattle.service.specs.Steps.{opening_step, closing_step, with_block, read_word, read_step, write_refusal, refusing_step, status_step, step_on, step};

use crate::link::{Head, Reply, Standing, Transfer};
use crate::service::Service;
use block::idn::Idn;
use block::phase::Phase;
use block::view::View;
use channel::code::{Code, Digit};
use channel::control::{Control, Element};
use channel::layout::{check_read, layout_of};
use store::store::Store;

// No block is open.
pub(crate) const NOT_OPEN: Code = Code {
    element: Element::Closing,
    digit: Digit::Missing,
};

fn refuse(element: Element, digit: Digit) -> Result<Reply, Code>
    ensures { result ≡ Err (record { element = element; digit = digit }) }
{
    Err(Code { element, digit })
}

// A word that a step reads of a block, or what is wrong with it.
fn read_word(view: View<'_>, element: Element, k: usize, last: bool) -> Result<u16, Digit>
    ensures { result ≡ read_word (Some (seen view.entry)) (element_number element) k last }
{
    let layout = layout_of(view, element).ok_or(Digit::Missing)?;
    check_read(layout.word_count(), k, last)?;
    Ok(layout.word_at(k))
}

// What is wrong with writing an element from 2 to 6 of a block: they are only to be read.
fn write_refusal(view: View<'_>, element: Element) -> Digit
    ensures { result ≡ write_refusal (shape_of (seen view.entry) (element_number element)) }
{
    match layout_of(view, element) {
        Some(_) => Digit::ReadOnly,
        None => Digit::Missing,
    }
}

// The number of the next word of a transfer on this element in this direction.
pub(crate) fn next_word(transfer: Option<Transfer>, element: Element, write: bool) -> usize
    ensures { result ≡ next_word transfer (element_number element) write }
{
    transfer
        .filter(|t| t.is_on(element, write))
        .map_or(1, |t| usize::from(t.count) + 1)
}

impl<S: Store> Service<S> {
    // Ends or drops a transfer, or lets it go on; words are kept only while a write goes on.
    fn end(&mut self, reply: Result<Reply, Code>)
        ensures { viewed S.Store.blocks self.new ≡ replied (viewed S.Store.blocks self.old) reply }
    {
        self.link.transfer = reply.ok().and_then(|reply| reply.goes_on);
        self.link.answer = reply.map(|reply| reply.word).map_err(Code::number);
        if !self.link.transfer.is_some_and(|transfer| transfer.write) {
            self.kept.clear();
        }
    }

    // Closes the channel.
    fn close(&mut self) -> Result<Reply, Code>
        ensures { replied (viewed S.Store.blocks self.new) result ≡ closing_step (viewed S.Store.blocks self.old) self.old.link.ahs false }
    {
        self.link.place = None;
        Ok(Reply::DONE)
    }

    // Opens the block of an IDN; an IDN that is not in the store closes the channel.
    fn open(&mut self, idn: Idn) -> Result<Reply, Code>
        ensures { replied (viewed S.Store.blocks self.new) result ≡ opening_step (viewed S.Store.blocks self.old) self.old.link.ahs idn.0 }
    {
        let found = self.store.find(idn);
        self.link.place = found;
        match found {
            Some(_) => Ok(Reply::DONE),
            None => refuse(Element::Number, Digit::Missing),
        }
    }

    // A step that reads element 1: the data status.
    fn read_status(&self, place: usize) -> Result<Reply, Code>
        ensures { replied (viewed S.Store.blocks self.now) result ≡ with_block (viewed S.Store.blocks self.now) self.now.link.ahs (slice_get (S.Store.blocks self.now.store) place) (status_step (viewed S.Store.blocks self.now) self.now.link.ahs) }
    {
        let view = self.store.block(place).ok_or(NOT_OPEN)?;
        Ok(Reply {
            word: view.status,
            goes_on: None,
        })
    }

    // A step that writes an element from 2 to 6.
    fn refuse_write(&self, place: usize, element: Element) -> Result<Reply, Code>
        ensures { replied (viewed S.Store.blocks self.now) result ≡ with_block (viewed S.Store.blocks self.now) self.now.link.ahs (slice_get (S.Store.blocks self.now.store) place) (refusing_step (viewed S.Store.blocks self.now) self.now.link.ahs element) }
    {
        let view = self.store.block(place).ok_or(NOT_OPEN)?;
        refuse(element, write_refusal(view, element))
    }

    // A step that reads an element from 2 to 7 of the block at a place.
    fn read(&self, place: usize, element: Element, last: bool) -> Result<Reply, Code>
        ensures { replied (viewed S.Store.blocks self.now) result ≡ with_block (viewed S.Store.blocks self.now) self.now.link.ahs (slice_get (S.Store.blocks self.now.store) place) (λ b. read_step (viewed S.Store.blocks self.now) self.now.link.ahs element b last) }
    {
        let view = self.store.block(place).ok_or(NOT_OPEN)?;
        let k = next_word(self.link.transfer, element, false);
        let word = read_word(view, element, k, last).map_err(|digit| Code { element, digit })?;
        let count = k as u16;
        let goes_on = (!last).then_some(Transfer {
            element,
            write: false,
            count,
        });
        Ok(Reply { word, goes_on })
    }

    // What a write needs to know of the block at a place.
    pub fn head_at(&self, place: usize) -> Option<Head>
        ensures { result ≡ option_map head_of (slice_get (S.Store.blocks self.now.store) place) }
    {
        self.store.block(place).map(Head::from)
    }

    // What a step comes to: element, direction and channel state decide.
    // stays: one match with guards: the cases overlap and their order decides, which a table of closures would hide and be longer
    fn reply(&mut self, standing: Standing, control: Control, info: u16) -> Result<Reply, Code>
        ensures { replied (viewed S.Store.blocks self.new) result ≡ step_on (phase_number standing.phase) standing.out (viewed S.Store.blocks self.old) self.old.link.ahs (element_named (element_of control.0)) (is_write control.0) (is_last control.0) info }
    {
        let last = control.is_last();
        match (self.link.place, control.element(), control.is_write()) {
            (_, Element::Closing, true) => refuse(Element::Closing, Digit::Misused),
            (_, Element::Closing, false) => self.close(),
            (_, Element::Number, true) if !last => refuse(Element::Number, Digit::Misused),
            (_, Element::Number, true) => self.open(Idn(info)),
            (None, _, _) => Err(NOT_OPEN),
            (Some(place), Element::Number, false) => self.read_status(place),
            (Some(place), Element::Content, true) => self.write(standing, place, info, last),
            (Some(place), element, true) => self.refuse_write(place, element),
            (Some(place), element, false) => self.read(place, element, last),
        }
    }

    // One step.
    // stays: phase and order as two parameters, since the drive calls it so and a struct would only be taken apart
    pub fn step(&mut self, phase: Phase, out: Option<Idn>, control: Control, info: u16)
        ensures value { viewed S.Store.blocks self.new ≡ step (phase_number phase) out (viewed S.Store.blocks self.old) control.0 info }
        ensures within { length self.new.kept ≤ 1024 }
    {
        self.link.ahs = control.handshake();
        let reply = self.reply(Standing { phase, out }, control, info);
        self.end(reply);
        // for `within`: only Kept tells how much it holds
        let _ = self.kept.bytes();
    }
}
