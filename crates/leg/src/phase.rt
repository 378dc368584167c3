// The phase of a leg.
ghost use Rattle.std.specs.Prelude.{◌≡◌};
ghost use Rattle.leg.specs.Phases.{phase_numbered};

use refusal::refusal::Refusal;

#[derive(Clone, Copy, PartialEq, Eq, Debug)]
pub enum Phase {
    Climb,
    Cruise,
    Descent,
}

// The phase that a number names.
impl TryFrom<u64> for Phase {
    type Error = Refusal;

    ghost try_from_gives = { λ number result. result ≡ phase_numbered number };

    fn try_from(number: u64) -> Result<Phase, Refusal> {
        match number {
            1 => Ok(Phase::Climb),
            2 => Ok(Phase::Cruise),
            3 => Ok(Phase::Descent),
            _ => Err(Refusal::Phase),
        }
    }
}
