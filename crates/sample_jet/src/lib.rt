// The sample jet, at which examples and worked figures are reckoned.
#![tactic(auto)]

ghost use Rattle.sample_jet.specs.SampleJet.{SampleEngine, Sample};

use aircraft::record::{
    Aircraft, Descent, Engine, Fuel, JetCoefficients, Masses, Row, Rows, Temperature,
};

pub fn coefficients() -> JetCoefficients
    ensures { SampleEngine result }
{
    JetCoefficients {
        ctc1: 150000000,
        ctc2: 50000,
        ctc3: 1000000,
        fuel: Fuel {
            cf1: 70000000,
            cf2: 100000,
            cf3: 12000000,
            cf4: 100000,
        },
    }
}

pub fn aircraft() -> Aircraft
    ensures { Sample result }
{
    let takeoff = Row {
        stall: 117000,
        cd0: 3305700,
        cd2: 4536200,
    };
    Aircraft {
        engine: Engine::Jet(coefficients()),
        masses: Masses {
            reference: 60000000,
            minimum: 40000000,
            maximum: 80000000,
        },
        ceiling: 40000,
        wing: 100000,
        rows: Rows {
            cruise: Row {
                stall: 140000,
                cd0: 2000000,
                cd2: 4000000,
            },
            initial: takeoff,
            takeoff,
            approach: Row {
                stall: 115000,
                cd0: 3803100,
                cd2: 4493200,
            },
            landing: Row {
                stall: 97000,
                cd0: 7893500,
                cd2: 4482200,
            },
        },
        gear: 2250000,
        temperature: Temperature {
            ctc4: 100000,
            ctc5: 500000,
        },
        descent: Descent {
            low: 730000,
            high: 2060000,
            level: 8000,
            approach: 12000000,
            landing: 36000000,
        },
        cruise: 100000,
    }
}
