// Phases, requests and legs at worked figures, at the ends of their ranges and at each refusal; the figures were worked out apart from this code.
use crate::figures::Figures;
use crate::flown::Flown;
use crate::mass::Mass;
use crate::phase::Phase;
use crate::request::Request;
use crate::setting::Setting;
use air::bench::Bench;
use aircraft::record::{
    Aircraft, Descent, Engine, Fuel, JetCoefficients, Masses, Row, Rows, Temperature,
};
use aircraft::words::Configuration;
use engine::jet::Jet;
use refusal::refusal::Refusal;

// Every coefficient at the end of its range that makes the leg's figures large.
fn largest_jet() -> JetCoefficients {
    JetCoefficients {
        ctc1: 2000000000,
        ctc2: 999990,
        ctc3: 9999900,
        fuel: Fuel {
            cf1: 399972000,
            cf2: 999990000,
            cf3: 1000000000,
            cf4: 99999000,
        },
    }
}

fn largest() -> Aircraft {
    let row = Row {
        stall: 250000,
        cd0: 47000000,
        cd2: 47000000,
    };
    Aircraft {
        engine: Engine::Jet(largest_jet()),
        masses: Masses {
            reference: 900000000,
            minimum: 900000000,
            maximum: 900000000,
        },
        ceiling: 60000,
        wing: 1000000,
        rows: Rows {
            cruise: row,
            initial: row,
            takeoff: row,
            approach: row,
            landing: row,
        },
        gear: 47000000,
        temperature: Temperature {
            ctc4: -990000,
            ctc5: 10000000,
        },
        descent: Descent {
            low: 100000000,
            high: 100000000,
            level: 60000,
            approach: 100000000,
            landing: 100000000,
        },
        cruise: 200000,
    }
}

fn asked(altitude: u64, speed: u64, calibrated: u64, seconds: u64) -> Figures {
    Figures {
        altitude,
        speed,
        calibrated,
        seconds,
    }
}

// The sample jet at 450 kt for a minute.
fn sample_leg(
    phase: Phase,
    altitude: u64,
    density: u64,
    deviation: i64,
    mass: Mass,
) -> Result<Flown, Refusal> {
    let day = Bench::new(density, deviation)?;
    let request = Request::new(&sample_jet::aircraft(), asked(altitude, 4500, 280, 60))?;
    let setting = Setting {
        aircraft: &sample_jet::aircraft(),
        kind: &Jet {
            coefficients: sample_jet::coefficients(),
        },
        day: &day,
    };
    setting.fly(phase, &request, mass)
}

// The configuration of the sample jet at 60 t and 250 kt.
fn flaps(phase: Phase, altitude: u64, calibrated: u64) -> Result<Configuration, Refusal> {
    let day = Bench::new(100000, 0)?;
    let request = Request::new(
        &sample_jet::aircraft(),
        asked(altitude, 2500, calibrated, 60),
    )?;
    let setting = Setting {
        aircraft: &sample_jet::aircraft(),
        kind: &Jet {
            coefficients: sample_jet::coefficients(),
        },
        day: &day,
    };
    let mass = Mass {
        milligrams: 60000000000,
    };
    let flown = setting.fly(phase, &request, mass)?;
    Ok(flown.configuration)
}

// The largest aircraft at 900 t, 700 kt and the densest air for a minute.
fn largest_leg(
    phase: Phase,
    altitude: u64,
    calibrated: u64,
    deviation: i64,
) -> Result<Flown, Refusal> {
    let day = Bench::new(150000, deviation)?;
    let request = Request::new(&largest(), asked(altitude, 7000, calibrated, 60))?;
    let setting = Setting {
        aircraft: &largest(),
        kind: &Jet {
            coefficients: largest_jet(),
        },
        day: &day,
    };
    let mass = Mass {
        milligrams: 900000000000,
    };
    setting.fly(phase, &request, mass)
}

// The number by which a leg of the sample aircraft is refused.
fn refusal_of(
    kind: &Jet,
    phase: Phase,
    altitude: u64,
    speed: u64,
    milligrams: u64,
) -> Result<Option<u8>, Refusal> {
    let day = Bench::new(45000, 0)?;
    let request = Request::new(&sample_jet::aircraft(), asked(altitude, speed, 191, 60))?;
    if milligrams < 200000000 || milligrams > 900000000000 {
        return Err(Refusal::Script);
    }
    let setting = Setting {
        aircraft: &sample_jet::aircraft(),
        kind,
        day: &day,
    };
    let flown = setting.fly(phase, &request, Mass { milligrams });
    Ok(flown.err().map(u8::from))
}

// The number by which the figures of a leg are refused.
fn figures(altitude: u64, speed: u64, calibrated: u64, seconds: u64) -> Option<u8> {
    let request = Request::new(
        &sample_jet::aircraft(),
        asked(altitude, speed, calibrated, seconds),
    );
    request.err().map(u8::from)
}

#[test]
fn phases(rt: HostRuntime) {
    assert_eq!(rt; Phase::try_from(0), Err(Refusal::Phase));
    assert_eq!(rt; Phase::try_from(1), Ok(Phase::Climb));
    assert_eq!(rt; Phase::try_from(2), Ok(Phase::Cruise));
    assert_eq!(rt; Phase::try_from(3), Ok(Phase::Descent));
    assert_eq!(rt; Phase::try_from(4), Err(Refusal::Phase));
}

#[test]
fn ends_of_the_figures(rt: HostRuntime) {
    assert_eq!(rt; figures(0, 300, 20, 1), None);
    assert_eq!(rt; figures(40000, 7000, 500, 60), None);
    assert_eq!(rt; figures(40001, 299, 19, 0), Some(17));
    assert_eq!(rt; figures(40000, 299, 19, 0), Some(18));
    assert_eq!(rt; figures(40000, 7001, 501, 61), Some(18));
    assert_eq!(rt; figures(40000, 300, 19, 0), Some(19));
    assert_eq!(rt; figures(40000, 300, 501, 61), Some(19));
    assert_eq!(rt; figures(40000, 300, 20, 0), Some(20));
    assert_eq!(rt; figures(40000, 300, 20, 61), Some(20));
}

#[test]
fn climbing_and_cruising(rt: HostRuntime) {
    assert_eq!(rt; flaps(Phase::Climb, 400, 280), Ok(Configuration::TakeOff));
    assert_eq!(rt;
        flaps(Phase::Climb, 401, 280),
        Ok(Configuration::InitialClimb)
    );
    assert_eq!(rt;
        flaps(Phase::Climb, 2000, 280),
        Ok(Configuration::InitialClimb)
    );
    assert_eq!(rt; flaps(Phase::Climb, 2001, 280), Ok(Configuration::Cruise));
    assert_eq!(rt; flaps(Phase::Cruise, 400, 20), Ok(Configuration::Cruise));
}

#[test]
fn descending(rt: HostRuntime) {
    assert_eq!(rt; flaps(Phase::Descent, 7999, 192), Ok(Configuration::Cruise));
    assert_eq!(rt;
        flaps(Phase::Descent, 7999, 191),
        Ok(Configuration::Approach)
    );
    assert_eq!(rt; flaps(Phase::Descent, 8000, 191), Ok(Configuration::Cruise));
    assert_eq!(rt;
        flaps(Phase::Descent, 3000, 159),
        Ok(Configuration::Approach)
    );
    assert_eq!(rt;
        flaps(Phase::Descent, 2999, 159),
        Ok(Configuration::Landing)
    );
    assert_eq!(rt;
        flaps(Phase::Descent, 2999, 160),
        Ok(Configuration::Approach)
    );
}

#[test]
fn worked_legs(rt: HostRuntime) {
    let c = Configuration::Cruise;
    let mass = Mass {
        milligrams: 60000000000,
    };
    let climb = Flown {
        configuration: c,
        thrust: 73500000,
        drag: 35601203,
        flow: 74602500,
        burn: 74602500,
        limited: false,
    };
    assert_eq!(rt; sample_leg(Phase::Climb, 30000, 45000, 0, mass), Ok(climb));
    let cruise = Flown {
        configuration: c,
        thrust: 35572661,
        drag: 35572661,
        flow: 36106250,
        burn: 36106250,
        limited: false,
    };
    assert_eq!(rt;
        sample_leg(
            Phase::Cruise,
            30000,
            45000,
            0,
            Mass {
                milligrams: 59925397500,
            },
        ),
        Ok(cruise)
    );
    let cold = Flown {
        configuration: c,
        thrust: 121500000,
        drag: 53975370,
        flow: 123322500,
        burn: 123322500,
        limited: false,
    };
    assert_eq!(rt;
        sample_leg(Phase::Climb, 10000, 90000, -5000, mass),
        Ok(cold)
    );
    let warm = Flown {
        configuration: c,
        thrust: 115425000,
        drag: 53975370,
        flow: 117156375,
        burn: 117156375,
        limited: false,
    };
    assert_eq!(rt;
        sample_leg(Phase::Climb, 10000, 90000, 2000, mass),
        Ok(warm)
    );
}

#[test]
fn largest_legs(rt: HostRuntime) {
    let c = Configuration::Cruise;
    let cruise = Flown {
        configuration: c,
        thrust: 5175558276,
        drag: 46088639284,
        flow: 41404466000,
        burn: 41404466000,
        limited: true,
    };
    assert_eq!(rt; largest_leg(Phase::Cruise, 60000, 500, -5000), Ok(cruise));
    let climb = Flown {
        configuration: c,
        thrust: 5447956080,
        drag: 46088639284,
        flow: 21791824211,
        burn: 21791824211,
        limited: false,
    };
    assert_eq!(rt; largest_leg(Phase::Climb, 60000, 20, 5000), Ok(climb));
    let c = Configuration::Landing;
    let landing = Flown {
        configuration: c,
        thrust: 1207193858,
        drag: 91800843636,
        flow: 4828775407,
        burn: 4828775407,
        limited: false,
    };
    assert_eq!(rt; largest_leg(Phase::Descent, 2999, 20, -5000), Ok(landing));
}

#[test]
fn refused_legs(rt: HostRuntime) {
    let jet = Jet {
        coefficients: sample_jet::coefficients(),
    };
    assert_eq!(rt;
        refusal_of(&jet, Phase::Climb, 30000, 1800, 59020798000),
        Ok(None)
    );
    assert_eq!(rt;
        refusal_of(&jet, Phase::Climb, 30000, 1800, 59020800000),
        Ok(Some(22))
    );
    assert_eq!(rt;
        refusal_of(&jet, Phase::Climb, 0, 300, 900000000000),
        Ok(Some(22))
    );
    assert_eq!(rt; refusal_of(&jet, Phase::Climb, 0, 300, 200000000), Ok(None));
    let fuel = Fuel {
        cf1: 1000000000,
        cf2: 100000,
        cf3: 12000000,
        cf4: 100000,
    };
    let thirsty = Jet {
        coefficients: JetCoefficients {
            ctc1: 150000000,
            ctc2: 50000,
            ctc3: 1000000,
            fuel,
        },
    };
    assert_eq!(rt;
        refusal_of(&thirsty, Phase::Climb, 30000, 300, 60000000000),
        Ok(Some(22))
    );
    assert_eq!(rt;
        refusal_of(&thirsty, Phase::Climb, 30000, 4500, 60000000000),
        Ok(Some(23))
    );
    assert_eq!(rt;
        refusal_of(&thirsty, Phase::Cruise, 30000, 4500, 60000000000),
        Ok(Some(23))
    );
    assert_eq!(rt;
        refusal_of(&thirsty, Phase::Descent, 7999, 4500, 60000000000),
        Ok(Some(23))
    );
    assert_eq!(rt;
        refusal_of(&thirsty, Phase::Descent, 8000, 4500, 60000000000),
        Ok(None)
    );
}
