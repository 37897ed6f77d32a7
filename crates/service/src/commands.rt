// The right "last" of a write to a command.
ghost use Rattle.std.specs.Prelude.{◌≡◌, true, false, length, IfSome, if◌then◌else◌, MatchOption, nat_eq};
ghost use Rattle.block.specs.Lists.{place_of};
ghost use Rattle.block.specs.Phases.{phase_number};
ghost use Rattle.service.specs.Changes.{accepted_at, status_set};
ghost use Rattle.service.specs.Replies.{last_replied};
ghost use Rattle.service.specs.States.{viewed};
ghost use Rattle.service.specs.Steps.{Check, check_of, checked, commanded, command_verdict, finish_command, stock_of};
ghost use Rattle.service.specs.Words.{written_data, word_bytes};
ghost use Rattle.std.specs.Option.{option_map};

use crate::active::{is_recalled, others_active};
use crate::changes::accept_at;
use crate::checks::{name_for_phase_3, name_for_phase_4};
use crate::kept::Kept;
use crate::link::{Standing, Target};
use crate::service::Service;
use block::idn::Idn;
use block::idns::{INVALID_FOR_PHASE_3, INVALID_FOR_PHASE_4, PHASE_3_CHECK, PHASE_4_CHECK};
use channel::code::Digit;
use channel::command::{CommandStatus, CommandWord, command_status, runs_in};
use store::store::Store;

// The status of a command after a word, or what is wrong with the word.
fn command_verdict<S: Store>(
    store: &S,
    standing: Standing,
    target: Target,
    info: u16,
) -> Result<u16, Digit>
    ensures { result ≡ command_verdict (phase_number standing.phase) standing.out (S.Store.blocks store.now) target.place target.head info }
{
    let Target { place, head, .. } = target;
    let busy = others_active(store, place);
    let recalled = is_recalled(store, standing.out);
    let runs = runs_in(head.idn, standing.phase);
    command_status(info, head.status, busy, recalled, runs)
}

// Runs a check, if the IDN is that of one: keeps its names, and gives the IDN of its list.
// stays: a match on two constants, since a table of closures would be longer and the two checks are all there are
fn run_check<S: Store>(store: &S, kept: &mut Kept, idn: Idn) -> Option<Idn>
    ensures list { option_map (λ i. i.0) result ≡ option_map (λ c. c.list) (check_of idn.0 (S.Store.blocks store.now)) }
    ensures names { IfSome (check_of idn.0 (S.Store.blocks store.now)) (λ c. kept.new ≡ word_bytes c.names) }
{
    match idn {
        PHASE_3_CHECK => {
            name_for_phase_3(store, kept);
            Some(INVALID_FOR_PHASE_3)
        }
        PHASE_4_CHECK => {
            name_for_phase_4(store, kept);
            Some(INVALID_FOR_PHASE_4)
        }
        _ => None,
    }
}

impl<S: Store> Service<S> {
    // A check ends in its step: its list gets the names, and none means status 3 and the pass mark.
    fn end_check(&mut self, place: usize, list: Idn)
        ensures blocks { S.Store.blocks self.new.store ≡ status_set (accepted_at (S.Store.blocks self.old.store) (place_of (S.Store.blocks self.old.store) list.0) self.old.kept) place (if nat_eq (length self.old.kept) 0 then 3 else 15) }
        ensures mark { self.new.mark ≡ (if nat_eq (length self.old.kept) 0 then true else self.old.mark) }
        ensures link { self.new.link ≡ self.old.link }
    {
        let passed = self.kept.is_empty();
        accept_at(&mut self.store, list, self.kept.bytes());
        let status = if passed {
            CommandStatus::Done
        } else {
            CommandStatus::Failed
        };
        let _ = self.store.set_status(place, status.number());
        self.mark |= passed;
    }

    // A word that the command takes: its data are stored, and word 3 runs a check to its end.
    fn take_word(&mut self, target: Target, info: u16, status: u16)
        ensures stock { stock_of (viewed S.Store.blocks self.new) ≡ commanded (S.Store.blocks self.old.store) self.old.mark target.place target.head.idn.0 (written_data target.head.attribute.0 target.n self.old.kept) info status }
        ensures link { self.new.link ≡ self.old.link }
    {
        let Target { place, head, n } = target;
        let _ = self
            .store
            .replace(place, self.kept.written(head.attribute, n));
        if CommandWord::try_from(info) == Ok(CommandWord::Start)
            && let Some(list) = run_check(&self.store, &mut self.kept, head.idn)
        {
            self.end_check(place, list);
        } else {
            let _ = self.store.set_status(place, status);
        }
    }

    // The right "last" of a write to a command.
    pub(crate) fn finish_command(
        &mut self,
        standing: Standing,
        target: Target,
        info: u16,
    ) -> Result<(), Digit>
        ensures { last_replied (viewed S.Store.blocks self.new) result ≡ finish_command (phase_number standing.phase) standing.out (viewed S.Store.blocks self.old) self.old.link.ahs target.place target.head (written_data target.head.attribute.0 target.n self.old.kept) info }
    {
        let status = command_verdict(&self.store, standing, target, info)?;
        self.take_word(target, info, status);
        Ok(())
    }
}
