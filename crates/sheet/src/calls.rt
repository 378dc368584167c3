// What a call of a script does to a flight.
ghost use Rattle.sheet.specs.Sheets.{CallMade};

use crate::answer::Answer;
use air::days::AnyDay;
use engine::any::AnyKind;
use flight::call::Call;
use flight::flight::Flight;
use refusal::refusal::Refusal;

// The flight is read after a refused call too, since what is read keeps to the book either way.
// The arms are alike but for the call: a function of it would need a closure with a contract of its own for each.
pub(crate) fn make<'a>(
    flight: &mut Flight<AnyKind, AnyDay>,
    call: Call,
) -> Result<Answer<'a>, Refusal>
    ensures { CallMade call flight.old result flight.new }
{
    match call {
        Call::Leg { phase, figures } => {
            let flown = flight.leg(phase, figures);
            let reading = flight.reading();
            flown.map(|flown| Answer::Leg(flown, reading))
        }
        Call::Uplift(grams) => {
            let done = flight.uplift(grams);
            let reading = flight.reading();
            done.map(|()| Answer::Uplift(reading))
        }
        Call::Jettison(grams) => {
            let done = flight.jettison(grams);
            let reading = flight.reading();
            done.map(|()| Answer::Jettison(reading))
        }
        Call::Touchdown => {
            let done = flight.touchdown();
            let reading = flight.reading();
            done.map(|()| Answer::Touchdown(reading))
        }
    }
}
