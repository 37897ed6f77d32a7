// Reports of the drive's firmware.
ghost use Rattle.std.specs.Int.Count.{count_trailing_zeros};
ghost use Rattle.std.specs.Prelude.{◌≡◌, length, Some, None, MatchResult};
ghost use Rattle.block.specs.Lists.{place_of};
ghost use Rattle.block.specs.Named as named;
ghost use Rattle.block.specs.Phases.{phase_number};
ghost use Rattle.block.specs.Values.{ok_unless};
ghost use Rattle.service.specs.Changes.{accepted_at};
ghost use Rattle.drive.specs.Machines.{view};
ghost use Rattle.drive.specs.Reports.{length_cause, data_cause, head_refusal, report_refusal, diagnostic_text, report_answer, report_after};

use crate::drive::Drive;
use block::attribute::Attribute;
use block::idn::Idn;
use block::idns::{CLASS_1_DIAGNOSTIC, DIAGNOSTIC_TEXT, is_timing};
use block::keeper::Keeper;
use block::phase::Phase;
use block::value::word_at;
use refusal::{Cause, Refusal};
use service::changes::{accept, accept_at};
use service::link::Head;
use std::cmp::Ordering;
use store::store::Store;
use store::value::check_value;

// The check of the length of reported data.
fn check_length(attribute: Attribute, most: u16, n: usize) -> Result<(), Cause>
    ensures { result ≡ ok_unless (length_cause attribute.0 most n) }
{
    let item = attribute.item();
    if attribute.is_list() {
        if n > usize::from(most) {
            return Err(Cause::TooLong);
        }
        if n % item != 0 {
            return Err(Cause::Broken);
        }
        return Ok(());
    }
    match n.cmp(&item) {
        Ordering::Less => Err(Cause::TooShort),
        Ordering::Equal => Ok(()),
        Ordering::Greater => Err(Cause::TooLong),
    }
}

// The check of reported data: the length, then the value.
fn check_data<S: Store>(store: &S, head: Head, bytes: &[u8]) -> Result<(), Cause>
    ensures { result ≡ ok_unless (data_cause (S.Store.blocks store.now) head bytes.now) }
{
    check_length(head.attribute, head.most, bytes.len())?;
    check_value(store, head.attribute, head.limits, bytes)?;
    Ok(())
}

// The check of a report on a block.
fn check_head<S: Store>(store: &S, phase: Phase, head: Head, bytes: &[u8]) -> Result<(), Refusal>
    ensures { result ≡ ok_unless (head_refusal (phase_number phase) (S.Store.blocks store.now) head bytes.now) }
{
    if head.keeper != Keeper::Drive {
        return Err(Refusal::Keeper);
    }
    if is_timing(head.idn) && phase != Phase::Zero {
        return Err(Refusal::Timing);
    }
    check_data(store, head, bytes)?;
    Ok(())
}

// S-0-0095 follows S-0-0011: the word's trailing zeros choose the text, and a word without a set bit has none.
fn diagnose<S: Store>(store: &mut S, word: u16)
    ensures { S.Store.blocks store.new ≡ accepted_at (S.Store.blocks store.old) (place_of (S.Store.blocks store.old) named.diagnostic_text) (diagnostic_text (count_trailing_zeros 16 word)) }
{
    let row = word.trailing_zeros();
    if row == u16::BITS {
        accept_at(store, DIAGNOSTIC_TEXT, &[]);
        return;
    }
    // stays: two digits by hand, since a Display needs a writer over fixed memory, and there is no heap for a String
    let mut text = *b"C1D 00";
    text[4] += (row / 10) as u8;
    text[5] += (row % 10) as u8;
    accept_at(store, DIAGNOSTIC_TEXT, &text);
}

impl<S: Store> Drive<S> {
    // The place of the block of a report, or why the report is refused.
    fn report_verdict(&self, idn: Idn, bytes: &[u8]) -> Result<usize, Refusal>
        ensures { MatchResult result (λ place. (report_refusal (view S.Store.blocks self.now) idn.0 bytes.now ≡ None) × (Some place ≡ place_of (S.Store.blocks self.now.service.store) idn.0)) (λ e. report_refusal (view S.Store.blocks self.now) idn.0 bytes.now ≡ Some e) }
    {
        let place = self.service.store.find(idn).ok_or(Refusal::Unknown)?;
        let head = self.service.head_at(place).ok_or(Refusal::Unknown)?;
        check_head(&self.service.store, self.phase, head, bytes)?;
        Ok(place)
    }

    // The firmware reports new data of a parameter that the drive keeps.
    pub fn report(&mut self, idn: Idn, bytes: &[u8]) -> Result<(), Refusal>
        ensures answer { result ≡ report_answer (view S.Store.blocks self.old) idn.0 bytes.now }
        ensures after { view S.Store.blocks self.new ≡ report_after (view S.Store.blocks self.old) idn.0 bytes.now }
    {
        let place = self.report_verdict(idn, bytes)?;
        accept(&mut self.service.store, place, bytes);
        self.service.mark = false;
        if idn == CLASS_1_DIAGNOSTIC {
            diagnose(&mut self.service.store, word_at(bytes, 0));
        }
        Ok(())
    }
}
