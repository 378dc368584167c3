// The calls of a flight.
ghost use Rattle.std.specs.Prelude.{◌≡◌};
ghost use Rattle.flight.specs.declared.call.Call.TheVariants.{Leg, Uplift, Jettison, Touchdown};
ghost use Rattle.flight.specs.Accounts.{reading_of};
ghost use Rattle.flight.specs.Runs.{account, setting, Started, Made};
ghost use Rattle.flight.specs.Claims.{KeepsToTheBook, SomeBook};

use crate::flight::Flight;
use crate::reading::Reading;
use crate::start::Start;
use crate::status::Status;
use air::day::Day;
use aircraft::record::Aircraft;
use engine::kind::Kind;
use leg::figures::Figures;
use leg::flown::Flown;
use leg::setting::Setting;
use refusal::refusal::Refusal;

impl<K: Kind + Drop, D: Day + Drop> Flight<K, D> {
    // A flight on stand. Kind and day come by copy, so that a refused start takes nothing from its caller.
    // They come beside the aircraft, one by one: a struct of the three would ask callers to have them in one.
    pub fn start(aircraft: Aircraft, kind: K, day: D, start: Start) -> Result<Flight<K, D>, Refusal>
    where
        K: Copy,
        D: Copy,
        ensures { Started aircraft kind day start result }
    {
        let status = Status::begin(&aircraft, start)?;
        Ok(Flight {
            aircraft,
            kind,
            day,
            status,
        })
    }

    // A leg in the phase that a number names.
    pub fn leg(&mut self, phase: u64, figures: Figures) -> Result<Flown, Refusal>
        ensures { Made K.engine D.air self.old (Leg phase figures) result self.new }
    {
        let setting = Setting {
            aircraft: &self.aircraft,
            kind: &self.kind,
            day: &self.day,
        };
        self.status.leg(&setting, phase, figures)
    }

    // Grams of fuel put in, on stand.
    pub fn uplift(&mut self, grams: u64) -> Result<(), Refusal>
        ensures { Made K.engine D.air self.old (Uplift grams) result self.new }
    {
        self.status.uplift(&self.aircraft, grams)
    }

    // Grams of fuel thrown out, in the air.
    pub fn jettison(&mut self, grams: u64) -> Result<(), Refusal>
        ensures { Made K.engine D.air self.old (Jettison grams) result self.new }
    {
        self.status.jettison(grams)
    }

    // Back to stand.
    pub fn touchdown(&mut self) -> Result<(), Refusal>
        ensures { Made K.engine D.air self.old Touchdown result self.new }
    {
        self.status.touchdown()
    }

    // Mass, fuel and minimum-fuel mark. Whatever start and calls led to this flight, they are close to the exact book of that chain; and some did.
    pub fn reading(&self) -> Reading
        ensures answer { result ≡ reading_of (account self.now) }
        ensures claims { KeepsToTheBook K.engine D.air self.now result }
        ensures book { ∥ SomeBook (setting K.engine D.air self.now.aircraft self.now.kind self.now.day) result ∥₁ }
    {
        self.status.reading()
    }
}
