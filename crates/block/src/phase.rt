// The communication phases of the ring.
ghost use Rattle.std.specs.Prelude.{◌≡◌, false};
ghost use Rattle.std.specs.Result.{MatchResult};
ghost use Rattle.block.specs.Phases.{phase_number, known_phase};

#[derive(Clone, Copy, PartialEq, Eq, PartialOrd, Ord, Debug)]
pub enum Phase {
    Zero = 0,
    One = 1,
    Two = 2,
    Three = 3,
    Four = 4,
}

// A number that no phase has.
#[derive(Clone, Copy, PartialEq, Eq, Debug)]
pub struct NoPhase;

impl Phase {
    pub fn number(self) -> u8
        ensures { result ≡ phase_number self }
    {
        self as u8
    }
}

impl TryFrom<u8> for Phase {
    type Error = NoPhase;

    ghost try_from_gives = { λ n r. MatchResult r (λ phase. phase_number phase ≡ n) (λ _. known_phase n ≡ false) };

    fn try_from(number: u8) -> Result<Phase, NoPhase> {
        match number {
            0 => Ok(Phase::Zero),
            1 => Ok(Phase::One),
            2 => Ok(Phase::Two),
            3 => Ok(Phase::Three),
            4 => Ok(Phase::Four),
            _ => Err(NoPhase),
        }
    }
}
