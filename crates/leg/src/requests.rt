// Which figures make a request.
ghost use Rattle.std.specs.Prelude.{◌≡◌};
ghost use Rattle.leg.specs.Requests.{taken_figures, requested};

use crate::figures::Figures;
use crate::request::Request;
use aircraft::record::Aircraft;
use refusal::refusal::Refusal;

impl Request {
    // Refused by the first figure that is out of its range.
    pub fn new(aircraft: &Aircraft, figures: Figures) -> Result<Request, Refusal>
        ensures { requested result ≡ taken_figures aircraft.now figures }
    {
        let Figures {
            altitude,
            speed,
            calibrated,
            seconds,
        } = figures;
        if altitude > aircraft.ceiling {
            return Err(Refusal::Altitude);
        }
        if !(300..=7000).contains(&speed) {
            return Err(Refusal::Speed);
        }
        if !(20..=500).contains(&calibrated) {
            return Err(Refusal::Calibrated);
        }
        if !(1..=60).contains(&seconds) {
            return Err(Refusal::Seconds);
        }
        Ok(Request {
            altitude,
            speed,
            calibrated,
            seconds,
        })
    }
}
