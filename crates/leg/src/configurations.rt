// What a leg chooses by its phase, altitude and calibrated airspeed: the configuration, its drag pair and its descent factor.
ghost use Rattle.std.specs.Prelude.{◌≡◌, ◌≤◌};
ghost use Rattle.leg.specs.Requests.{figures_of};
ghost use Rattle.leg.specs.Configurations.{slow, climb_configuration, descent_configuration, configuration_of, gear_drag, drag_pair, descent_factor};

use crate::drag::Coefficients;
use crate::phase::Phase;
use crate::request::Request;
use aircraft::record::{Aircraft, Descent, Row, Rows};
use aircraft::words::Configuration;

// Below 1.3 stall speeds and 10 kt.
fn is_slow(request: &Request, row: &Row) -> bool
    ensures { result ≡ slow request.now.calibrated row.now.stall }
{
    10000 * request.calibrated < 13 * row.stall + 100000
}

fn climbing(altitude: u64) -> Configuration
    ensures { result ≡ climb_configuration altitude }
{
    match altitude {
        0..=400 => Configuration::TakeOff,
        401..=2000 => Configuration::InitialClimb,
        _ => Configuration::Cruise,
    }
}

fn descending(rows: &Rows, request: &Request) -> Configuration
    ensures { result ≡ descent_configuration rows.now request.now.altitude request.now.calibrated }
{
    if request.altitude >= 8000 || !is_slow(request, &rows.cruise) {
        return Configuration::Cruise;
    }
    if request.altitude < 3000 && is_slow(request, &rows.approach) {
        return Configuration::Landing;
    }
    Configuration::Approach
}

pub(crate) fn configuration(aircraft: &Aircraft, phase: Phase, request: &Request) -> Configuration
    ensures { result ≡ configuration_of aircraft.now phase (figures_of request.now) }
{
    match phase {
        Phase::Climb => climbing(request.altitude),
        Phase::Cruise => Configuration::Cruise,
        Phase::Descent => descending(&aircraft.rows, request),
    }
}

// What the gear adds to CD0.
fn gear(aircraft: &Aircraft, c: Configuration) -> u64
    ensures { result ≡ gear_drag aircraft.now c }
{
    match c {
        Configuration::Landing => aircraft.gear,
        _ => 0,
    }
}

pub(crate) fn coefficients(aircraft: &Aircraft, c: Configuration) -> Coefficients
    ensures { result ≡ drag_pair aircraft.now c }
{
    let row = aircraft.rows.of(c);
    Coefficients {
        cd0: row.cd0 + gear(aircraft, c),
        cd2: row.cd2,
    }
}

// The share of thrust in descent.
pub(crate) fn share(descent: &Descent, c: Configuration, altitude: u64) -> u64
    ensures value { result ≡ descent_factor descent.now c altitude }
    ensures bound { result ≤ 100000000 }
{
    match c {
        Configuration::Approach => descent.approach,
        Configuration::Landing => descent.landing,
        _ if altitude > descent.level => descent.high,
        _ => descent.low,
    }
}
