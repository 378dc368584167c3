// Holds the standard day's table against the formulas of the standard atmosphere.
#![tactic(auto)]

ghost use Rattle.std.specs.Prelude.{◌≡◌, ◌≤◌, unsigned_abs};
ghost use Rattle.air.specs.Standard.{standard_density};

use air::day::Day;
use air::standard::Standard;
use std::io;
use std::num::saturating_f64_to_u64;

// The levels of the table, 1,000 ft apart.
const LEVELS: u32 = 61;

// Temperature in K and pressure in Pa at sea level.
const T0: f64 = 288.15;

const P0: f64 = 101325.0;
// Gravity in m/s², the gas constant of air in m²/(K·s²).
const G: f64 = 9.80665;

const R: f64 = 287.05287;
// The fall of temperature in K/m up to the tropopause, and its height in m.
const LAPSE: f64 = -0.0065;

const TROPOPAUSE: f64 = 11000.0;
// A foot in m.
const FOOT: f64 = 0.3048;

// The density in kg/m³ at a height in m: pressure over gas constant and temperature.
fn density(height: f64) -> f64 {
    let below = if height < TROPOPAUSE {
        height
    } else {
        TROPOPAUSE
    };
    let temperature = T0 + LAPSE * below;
    let lower = P0 * (temperature / T0).powf(-G / (LAPSE * R));
    let pressure = lower * (-G / (R * temperature) * (height - below)).exp();
    pressure / (R * temperature)
}

// The density at an altitude in ft, to the nearest 10⁻⁵ kg/m³.
fn computed(feet: u32) -> u64 {
    saturating_f64_to_u64(100000.0 * density(feet as f64 * FOOT) + 0.5)
}

// The density that the standard day answers; 0 where it refuses, which is at no level of the table.
fn answered(feet: u32) -> u64
    ensures { feet ≤ 60000 → result ≡ unsigned_abs (standard_density feet) }
{
    Standard.at(feet as u64).map_or(0, |(density, _)| density)
}

fn main(rt: HostRuntime) -> io::Result<()> {
    for level in 0..LEVELS {
        let feet = 1000 * level;
        let table = answered(feet);
        let formula = computed(feet);
        println!(rt; "{feet} {table} {formula}")?;
    }
    let differences = (0..LEVELS)
        .map(|level| 1000 * level)
        .filter(|feet| answered(*feet) != computed(*feet))
        .count();
    println!(rt; "differences: {differences}")
}
