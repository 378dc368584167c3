// The standard day: the standard density at each altitude, at standard temperature.
ghost use Rattle.std.specs.Prelude.{◌≡◌, unsigned_abs};
ghost use Rattle.air.specs.Standard.{standard_density, standard_air};
ghost use Rattle.air.specs.Laws.{standard_laws};

use crate::day::Day;
use crate::levels::Between;
use crate::table::level_density;
use refusal::refusal::Refusal;
use refusal::within::Altitude;

// The density at an altitude in feet.
#[tactic(auto, unfolding(crate::specs::Standard::standard_density))]
fn density(altitude: Altitude) -> u64
    ensures { result ≡ unsigned_abs (standard_density altitude) }
{
    let h = altitude.number;
    if h == 60000 {
        return level_density(60);
    }
    let k = h / 1000;
    let between = Between {
        x0: level_density(k as usize) as i64,
        x1: level_density(k as usize + 1) as i64,
        h0: 1000 * k,
        h1: 1000 * (k + 1),
        h,
    };
    between.value().unsigned_abs()
}

#[derive(Clone, Copy, Debug)]
pub struct Standard;

impl Day for Standard {
    ghost air = { λ _. standard_air };

    ghost bounded = { λ s. standard_laws };

    fn at(&self, altitude: u64) -> Result<(u64, i64), Refusal> {
        let altitude = Altitude::new(altitude).ok_or(Refusal::TooHigh)?;
        Ok((density(altitude), 0))
    }
}
