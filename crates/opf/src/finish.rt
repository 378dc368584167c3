// The aircraft record of a plain record that is read without a fault: its ranges are judged, and a TryFrom would judge them again.
ghost use Rattle.std.specs.Prelude.{◌≡◌, List, Some};
ghost use Rattle.aircraft.specs.Values.{fuel_of};
ghost use Rattle.aircraft.specs.Words.{engine_type};
ghost use Rattle.opf.specs.Records.{masses_values, row_values, rows_values, SameThrust, descent_values, consumption_values, idle_values, values_of, RangedMasses, GivenRow, RangedRows, RangedDescent, RangedTemperature, RangedFuel, RangedThrust, Ranged};

use aircraft::draft::{
    Draft, DraftConsumption, DraftDescent, DraftIdle, DraftMasses, DraftRow, DraftThrust,
};
use aircraft::record::{
    Aircraft, Descent, Engine, Fuel, JetCoefficients, Masses, Row, Rows, Temperature,
    TurbopropCoefficients,
};
use aircraft::words::EngineType;

fn masses(m: DraftMasses) -> Masses
    requires { RangedMasses m }
    ensures { masses_values result ≡ m }
{
    Masses {
        reference: m.reference,
        minimum: m.minimum,
        maximum: m.maximum,
    }
}

fn row(d: Option<DraftRow>) -> Row
    requires { GivenRow d }
    ensures { Some (row_values result) ≡ d }
{
    let Some(d) = d else { unreachable!() };
    Row {
        stall: d.stall,
        cd0: d.cd0,
        cd2: d.cd2,
    }
}

fn rows(d: &[Option<DraftRow>; 5]) -> Rows
    requires { RangedRows d.now }
    ensures { rows_values result ≡ d.now }
{
    let [cruise, initial, takeoff, approach, landing] = *d;
    Rows {
        cruise: row(cruise),
        initial: row(initial),
        takeoff: row(takeoff),
        approach: row(approach),
        landing: row(landing),
    }
}

fn descent(d: DraftDescent) -> Descent
    requires { RangedDescent d }
    ensures { descent_values result ≡ d }
{
    Descent {
        low: d.low,
        high: d.high,
        level: d.level,
        approach: d.approach,
        landing: d.landing,
    }
}

fn temperature(t: DraftThrust) -> Temperature
    requires { RangedTemperature t }
    ensures ctc4 { result.ctc4 ≡ t.ctc4 }
    ensures ctc5 { result.ctc5 ≡ t.ctc5 }
{
    Temperature {
        ctc4: t.ctc4,
        ctc5: t.ctc5,
    }
}

fn fuel(c: DraftConsumption, i: DraftIdle) -> Fuel
    requires { RangedFuel c i }
    ensures consumption { consumption_values result ≡ c }
    ensures idle { idle_values result ≡ i }
{
    Fuel {
        cf1: c.cf1,
        cf2: c.cf2,
        cf3: i.cf3,
        cf4: i.cf4,
    }
}

fn engine(e: EngineType, t: DraftThrust, fuel: Fuel) -> Engine
    requires { RangedThrust e t }
    ensures kind { engine_type result ≡ e }
    ensures thrust { SameThrust result t }
    ensures fuel { fuel_of result ≡ fuel }
{
    match e {
        EngineType::Jet => Engine::Jet(JetCoefficients {
            ctc1: t.ctc1,
            ctc2: t.ctc2,
            ctc3: t.ctc3 as u64,
            fuel,
        }),
        EngineType::Turboprop => Engine::Turboprop(TurbopropCoefficients {
            ctc1: t.ctc1,
            ctc2: t.ctc2,
            ctc3: t.ctc3,
            fuel,
        }),
    }
}

pub(crate) fn finished(d: &Draft) -> Aircraft
    requires { Ranged d.now }
    ensures { values_of result ≡ d.now }
{
    let fuel = fuel(d.consumption, d.idle);
    Aircraft {
        engine: engine(d.engine, d.thrust, fuel),
        masses: masses(d.masses),
        ceiling: d.ceiling,
        wing: d.wing,
        rows: rows(&d.rows),
        gear: d.gear,
        temperature: temperature(d.thrust),
        descent: descent(d.descent),
        cruise: d.cruise,
    }
}
