// The formulas that jets and turboprops share.
ghost use Rattle.std.specs.Prelude.{◌≡◌, ◌+◌, ◌≤◌, if◌then◌else◌, Ok, Err};
ghost use Rattle.refusal.specs.declared.refusal.Refusal.TheVariants.{Flow};
ghost use Rattle.engine.specs.Formulas.{thrust_factor, flow_of, too_thirsty, idle_flow};

use crate::asked::Thrust;
use aircraft::record::Fuel;
use refusal::refusal::Refusal;
use refusal::within::Altitude;

// What is left of thrust at an altitude, in 10⁻⁹.
pub(crate) fn thrust_factor(ctc2: u64, rise: u64, altitude: Altitude) -> u64
    requires steep { 10000 ≤ ctc2 }
    requires small { rise ≤ 3599964000 }
    ensures value { result ≡ thrust_factor ctc2 rise altitude }
    ensures bound { result ≤ 1000000000 + rise }
{
    (1000000000 + rise).saturating_sub(1000000000 * altitude.number / ctc2)
}

// Nominal flow, refused where the specific consumption is above 4 kg per minute and kN.
pub(crate) fn nominal_flow(consumption: u64, thrust: Thrust) -> Result<u64, Refusal>
    ensures { result ≡ (if too_thirsty consumption then Err Flow else Ok (flow_of consumption thrust)) }
{
    if consumption > 400000000 {
        return Err(Refusal::Flow);
    }
    Ok(consumption * thrust.number / 100000000)
}

pub(crate) fn idle_flow(fuel: &Fuel, altitude: Altitude) -> u64
    ensures { result ≡ idle_flow fuel.now altitude }
{
    fuel.cf3 * fuel.cf4.saturating_sub(altitude.number) / fuel.cf4
}
