// What each call makes of a flight's status. A refusal leaves it as it was.
ghost use Rattle.std.specs.Prelude.{◌≡◌, ◌-◌, nat_le, Ok};
ghost use Rattle.refusal.specs.declared.refusal.Refusal.TheVariants as refusal;
ghost use Rattle.flight.specs.Calls.{in_mg};
ghost use Rattle.flight.specs.Accounts.{mass_of, reading_of, unless, most_grams, some_grams, start_outcome, leg_outcome, Leaves, uplift_outcome, jettison_outcome, touchdown_outcome};

use crate::reading::Reading;
use crate::start::Start;
use crate::states::Transition;
use crate::status::{State, Status};
use air::day::Day;
use aircraft::record::Aircraft;
use engine::kind::Kind;
use leg::figures::Figures;
use leg::flown::Flown;
use leg::mass::Mass;
use leg::phase::Phase;
use leg::request::Request;
use leg::setting::Setting;
use refusal::refusal::Refusal;

// Grams that a caller names, in mg.
fn milligrams(grams: u64) -> Result<u64, Refusal>
    ensures { result ≡ unless refusal.Grams (nat_le grams most_grams) (Ok (in_mg grams)) }
{
    if grams > 1000000000 {
        return Err(Refusal::Grams);
    }
    Ok(grams * 1000)
}

// Grams put in or thrown out, in mg: no less than a gram.
fn some_milligrams(grams: u64) -> Result<u64, Refusal>
    ensures { result ≡ unless refusal.Grams (some_grams grams) (Ok (in_mg grams)) }
{
    if grams < 1 {
        return Err(Refusal::Grams);
    }
    milligrams(grams)
}

// Refused where a mass, in mg, is above what the aircraft may have.
fn within_maximum(aircraft: &Aircraft, milligrams: u64) -> Result<(), Refusal>
    ensures { result ≡ unless refusal.Overweight (nat_le milligrams (in_mg aircraft.now.masses.maximum)) (Ok tt) }
{
    if milligrams > aircraft.masses.maximum * 1000 {
        return Err(Refusal::Overweight);
    }
    Ok(())
}

impl Status {
    pub(crate) fn begin(aircraft: &Aircraft, start: Start) -> Result<Status, Refusal>
        ensures { result ≡ start_outcome aircraft.now start }
    {
        let zero_fuel = milligrams(start.zero_fuel)?;
        let fuel = milligrams(start.fuel)?;
        let reserve = milligrams(start.reserve.unwrap_or(0))?;
        if start.zero_fuel < aircraft.masses.minimum {
            return Err(Refusal::ZeroFuel);
        }
        within_maximum(aircraft, zero_fuel + fuel)?;
        Ok(Status {
            state: State::Stand,
            zero_fuel,
            fuel,
            reserve,
            seconds: 0,
        })
    }

    pub(crate) fn mass(&self) -> Mass
        ensures { result.milligrams ≡ mass_of self.now }
    {
        Mass {
            milligrams: self.zero_fuel + self.fuel,
        }
    }

    // The mark is up exactly if the fuel is below the reserve.
    pub(crate) fn reading(&self) -> Reading
        ensures { result ≡ reading_of self.now }
    {
        Reading {
            mass: self.mass().milligrams,
            fuel: self.fuel,
            minimum: self.fuel < self.reserve,
        }
    }

    // The fuel that is left once some is burned or thrown out, in mg; refused where there is less.
    pub(crate) fn fuel_after(&self, milligrams: u64) -> Result<u64, Refusal>
        ensures { result ≡ unless refusal.FuelShort (nat_le milligrams self.now.fuel) (Ok (self.now.fuel - milligrams)) }
    {
        if milligrams > self.fuel {
            return Err(Refusal::FuelShort);
        }
        Ok(self.fuel - milligrams)
    }

    // A leg in the phase that a number names.
    pub(crate) fn leg<K: Kind, D: Day>(
        &mut self,
        setting: &Setting<'_, K, D>,
        phase: u64,
        figures: Figures,
    ) -> Result<Flown, Refusal>
        ensures { Leaves self.old (leg_outcome (record { aircraft = setting.now.aircraft.now; engine = K.engine setting.now.kind.now; air = D.air setting.now.day.now }) self.old phase figures) result self.new }
    {
        let phase = Phase::try_from(phase)?;
        let state = self.state.after(Transition::Leg(phase))?;
        let request = Request::new(setting.aircraft, figures)?;
        if self.seconds + request.seconds > 1000000 {
            return Err(Refusal::FlownSeconds);
        }
        let flown = setting.fly(phase, &request, self.mass())?;
        let fuel = self.fuel_after(flown.burn)?;
        self.state = state;
        self.fuel = fuel;
        self.seconds += request.seconds;
        Ok(flown)
    }

    pub(crate) fn uplift(&mut self, aircraft: &Aircraft, grams: u64) -> Result<(), Refusal>
        ensures { Leaves self.old (uplift_outcome aircraft.now self.old grams) result self.new }
    {
        let added = some_milligrams(grams)?;
        let state = self.state.after(Transition::Uplift)?;
        within_maximum(aircraft, self.mass().milligrams + added)?;
        self.state = state;
        self.fuel += added;
        Ok(())
    }

    pub(crate) fn jettison(&mut self, grams: u64) -> Result<(), Refusal>
        ensures { Leaves self.old (jettison_outcome self.old grams) result self.new }
    {
        let thrown = some_milligrams(grams)?;
        let state = self.state.after(Transition::Jettison)?;
        let fuel = self.fuel_after(thrown)?;
        self.state = state;
        self.fuel = fuel;
        Ok(())
    }

    pub(crate) fn touchdown(&mut self) -> Result<(), Refusal>
        ensures { Leaves self.old (touchdown_outcome self.old) result self.new }
    {
        self.state = self.state.after(Transition::Touchdown)?;
        Ok(())
    }
}
