// Procedure commands.
ghost use Rattle.std.specs.Prelude.{◌≡◌, false};
ghost use Rattle.std.specs.Result.{MatchResult};
ghost use Rattle.block.specs.Phases.{phase_number};
ghost use Rattle.channel.specs.declared.code.Digit.TheVariants.{Wrong};
ghost use Rattle.channel.specs.Commands.{status_number, known_status, word_number, known_word, is_active, has_ended, runs_in, command_rule};

use crate::code::Digit;
use block::idn::Idn;
use block::idns::{PHASE_3_CHECK, PHASE_4_CHECK};
use block::phase::Phase;

// How far a command came.
#[derive(Clone, Copy, PartialEq, Eq, Debug)]
pub enum CommandStatus {
    Idle = 0,
    Done = 3,
    Interrupted = 5,
    UnderWay = 7,
    Failed = 15,
}

// A status that a command never has: a block may hold any.
#[derive(Clone, Copy, PartialEq, Eq, Debug)]
pub struct NoStatus;

// What the master tells a command.
#[derive(Clone, Copy, PartialEq, Eq, Debug)]
pub enum CommandWord {
    Cancel = 0,
    Interrupt = 1,
    Start = 3,
}

impl CommandStatus {
    pub fn number(self) -> u16
        ensures { result ≡ status_number self }
    {
        self as u16
    }
}

impl TryFrom<u16> for CommandStatus {
    type Error = NoStatus;

    ghost try_from_gives = { λ n r. MatchResult r (λ status. status_number status ≡ n) (λ _. known_status n ≡ false) };

    fn try_from(number: u16) -> Result<CommandStatus, NoStatus> {
        match number {
            0 => Ok(CommandStatus::Idle),
            3 => Ok(CommandStatus::Done),
            5 => Ok(CommandStatus::Interrupted),
            7 => Ok(CommandStatus::UnderWay),
            15 => Ok(CommandStatus::Failed),
            _ => Err(NoStatus),
        }
    }
}

impl CommandWord {
    pub fn number(self) -> u16
        ensures { result ≡ word_number self }
    {
        self as u16
    }
}

// Any other word is a wrong value.
impl TryFrom<u16> for CommandWord {
    type Error = Digit;

    ghost try_from_gives = { λ n r. MatchResult r (λ word. word_number word ≡ n) (λ digit. (known_word n ≡ false) × (digit ≡ Wrong)) };

    fn try_from(number: u16) -> Result<CommandWord, Digit> {
        match number {
            0 => Ok(CommandWord::Cancel),
            1 => Ok(CommandWord::Interrupt),
            3 => Ok(CommandWord::Start),
            _ => Err(Digit::Wrong),
        }
    }
}

// stays: below, statuses and words come and go as plain words, since a block and a telegram may hold any.

// Whether a command is interrupted or under way.
pub fn is_active(status: u16) -> bool
    ensures { result ≡ is_active status }
{
    matches!(
        CommandStatus::try_from(status),
        Ok(CommandStatus::Interrupted | CommandStatus::UnderWay)
    )
}

// Whether a command has ended, done or failed.
pub fn has_ended(status: u16) -> bool
    ensures { result ≡ has_ended status }
{
    matches!(
        CommandStatus::try_from(status),
        Ok(CommandStatus::Done | CommandStatus::Failed)
    )
}

// Whether a command may be started in a phase.
pub fn runs_in(idn: Idn, phase: Phase) -> bool
    ensures { result ≡ runs_in idn.0 (phase_number phase) }
{
    match idn {
        PHASE_3_CHECK => phase == Phase::Two,
        PHASE_4_CHECK => phase == Phase::Three,
        _ => true,
    }
}

// The status of a command after a word of the master.
// stays: five parameters, which meet at this one rule and nowhere else
pub fn command_status(
    word: u16,
    status: u16,
    busy: bool,
    recalled: bool,
    runs: bool,
) -> Result<u16, Digit>
    ensures { result ≡ command_rule word status busy recalled runs }
{
    let shut = has_ended(status) || busy || recalled || !runs;
    match CommandWord::try_from(word)? {
        CommandWord::Cancel => Ok(CommandStatus::Idle.number()),
        _ if shut => Err(Digit::Locked),
        CommandWord::Interrupt => Ok(CommandStatus::Interrupted.number()),
        CommandWord::Start => Ok(CommandStatus::UnderWay.number()),
    }
}
