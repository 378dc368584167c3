// The bench day, and one type for all days.
ghost use Rattle.std.specs.Prelude.{◌≡◌};
ghost use Rattle.air.specs.Days.{bench_air, bench_pair, held, any_air};
ghost use Rattle.air.specs.Laws.{bench_laws, standard_laws};
ghost use Rattle.air.specs.declared.days.AnyDay.TheVariants as any;

use crate::bench::Bench;
use crate::day::Day;
use crate::standard::Standard;
use refusal::refusal::Refusal;
use refusal::within::Altitude;

impl Bench {
    // Refused where density or deviation is out of the bounds of a day. By TryFrom the two would come as a pair with no names.
    pub fn new(density: u64, deviation: i64) -> Result<Bench, Refusal>
        ensures { held result ≡ bench_pair density deviation }
    {
        if !(5000..=150000).contains(&density) || !(-5000..=5000).contains(&deviation) {
            return Err(Refusal::BenchPair);
        }
        Ok(Bench { density, deviation })
    }
}

impl Day for Bench {
    ghost air = { bench_air };

    ghost bounded = { bench_laws };

    fn at(&self, altitude: u64) -> Result<(u64, i64), Refusal> {
        Altitude::new(altitude).ok_or(Refusal::TooHigh)?;
        Ok((self.density, self.deviation))
    }
}

// Any day, chosen while a program runs; it hands a question on by a match, as an enum does.
#[derive(Clone, Copy, Debug)]
pub enum AnyDay {
    Bench(Bench),
    Standard(Standard),
}

impl Day for AnyDay {
    ghost air = { any_air };

    ghost bounded = { elim [ any.Bench b ↦ bench_laws b | any.Standard s ↦ standard_laws ] };

    fn at(&self, altitude: u64) -> Result<(u64, i64), Refusal> {
        match self {
            AnyDay::Bench(day) => day.at(altitude),
            AnyDay::Standard(day) => day.at(altitude),
        }
    }
}
