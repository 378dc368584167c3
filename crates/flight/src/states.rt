// What a flight's state takes, and the state that it leaves.
ghost use Rattle.std.specs.Prelude.{◌≡◌};
ghost use Rattle.flight.specs.States.{next_state};

use crate::status::State;
use leg::phase::Phase;
use refusal::refusal::Refusal;

// What a call asks of the state. Here a leg has its phase, which a call only names.
#[derive(Clone, Copy, PartialEq, Eq, Debug)]
pub(crate) enum Transition {
    Leg(Phase),
    Uplift,
    Jettison,
    Touchdown,
}

impl State {
    // Refused where this state does not take the transition.
    pub(crate) fn after(self, transition: Transition) -> Result<State, Refusal>
        ensures { result ≡ next_state self transition }
    {
        match (self, transition) {
            (State::Stand, Transition::Leg(Phase::Climb)) => Ok(State::Airborne),
            (State::Stand, Transition::Uplift) => Ok(State::Stand),
            (State::Airborne, Transition::Leg(_) | Transition::Jettison) => Ok(State::Airborne),
            (State::Airborne, Transition::Touchdown) => Ok(State::Stand),
            (State::Stand, Transition::Leg(_) | Transition::Jettison | Transition::Touchdown)
            | (State::Airborne, Transition::Uplift) => Err(Refusal::State),
        }
    }
}
