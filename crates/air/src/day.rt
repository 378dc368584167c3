// What a day is.
//
// A new day is a type with an `impl Day`. It gives `air`, its meaning: a pair for each whole foot.
// It proves `bounded`, that the meaning keeps the bounds of density and deviation from 0 to 60,000 ft,
// and that `at` answers the meaning's pair up to 60,000 ft and refuses every higher altitude by `TooHigh`.
ghost use Rattle.std.specs.Prelude.{◌≡◌};
ghost use Rattle.air.specs.Day.{Air, AirLaws, day_answer};

use refusal::refusal::Refusal;

pub trait Day {
    ghost air: { Self → Air };

    // Density in 10⁻⁵ kg/m³ and deviation from standard temperature in 0.01 K at an altitude in feet.
    // The pair is the form that the project asks a day to answer in.
    fn at(&self, altitude: u64) -> Result<(u64, i64), Refusal>
        ensures { result ≡ day_answer (air self.now) altitude };

    ghost bounded: { (s : Self) → AirLaws (air s) };
}
