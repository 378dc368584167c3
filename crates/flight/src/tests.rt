// Flights at the sample's figures, each call in each state, each refusal in its order, and a long chain; the figures were worked out apart from this code.
use crate::flight::Flight;
use crate::hop::fly_hop;
use crate::reading::Reading;
use crate::start::Start;
use air::bench::Bench;
use aircraft::record::{Fuel, JetCoefficients};
use aircraft::words::Configuration;
use engine::jet::Jet;
use leg::figures::Figures;
use leg::flown::Flown;
use refusal::refusal::Refusal;
use std::test::Fail;

fn figures(altitude: u64, speed: u64, calibrated: u64, seconds: u64) -> Figures {
    Figures {
        altitude,
        speed,
        calibrated,
        seconds,
    }
}

fn load(zero_fuel: u64, fuel: u64, reserve: Option<u64>) -> Start {
    Start {
        zero_fuel,
        fuel,
        reserve,
    }
}

// A jet that sips 10 g a minute at idle, and one whose nominal flow is refused at every speed.
fn sipping() -> Jet {
    Jet {
        coefficients: JetCoefficients {
            ctc1: 100000,
            ctc2: 50000,
            ctc3: 0,
            fuel: Fuel {
                cf1: 1000000,
                cf2: 100000,
                cf3: 10000,
                cf4: 99999000,
            },
        },
    }
}

fn thirsty() -> Jet {
    Jet {
        coefficients: JetCoefficients {
            ctc1: 150000000,
            ctc2: 50000,
            ctc3: 1000000,
            fuel: Fuel {
                cf1: 1000000000,
                cf2: 100000,
                cf3: 12000000,
                cf4: 100000,
            },
        },
    }
}

fn with_kind(kind: Jet, fuel: u64) -> Result<Flight<Jet, Bench>, Refusal> {
    Flight::start(
        sample_jet::aircraft(),
        kind,
        Bench::new(45000, 0)?,
        load(50000000, fuel, None),
    )
}

fn on_stand() -> Result<Flight<Jet, Bench>, Refusal> {
    with_kind(
        Jet {
            coefficients: sample_jet::coefficients(),
        },
        10000000,
    )
}

fn in_the_air() -> Result<Flight<Jet, Bench>, Refusal> {
    let mut flight = on_stand()?;
    let _ = flight.leg(1, figures(30000, 4500, 280, 60))?;
    Ok(flight)
}

// The number of a refusal.
fn number<T: Drop>(answer: Result<T, Refusal>) -> Option<u8> {
    answer.err().map(u8::from)
}

fn starting(zero_fuel: u64, fuel: u64, reserve: Option<u64>) -> Result<Option<u8>, Refusal> {
    Ok(number(Flight::start(
        sample_jet::aircraft(),
        sipping(),
        Bench::new(45000, 0)?,
        load(zero_fuel, fuel, reserve),
    )))
}

// Whether the mark is up at the start, with 10 t of fuel.
fn marked(reserve: Option<u64>) -> Result<bool, Refusal> {
    let flight = Flight::start(
        sample_jet::aircraft(),
        sipping(),
        Bench::new(45000, 0)?,
        load(50000000, 10000000, reserve),
    )?;
    Ok(flight.reading().minimum)
}

#[test]
fn sample_legs(rt: HostRuntime) -> Result<(), Fail> {
    let mut flight = on_stand()?;
    assert_eq!(rt;
        flight.reading(),
        Reading {
            mass: 60000000000,
            fuel: 10000000000,
            minimum: false,
        }
    );
    let climb = flight.leg(1, figures(30000, 4500, 280, 60))?;
    assert_eq!(rt;
        climb,
        Flown {
            configuration: Configuration::Cruise,
            thrust: 73500000,
            drag: 35601203,
            flow: 74602500,
            burn: 74602500,
            limited: false,
        }
    );
    assert_eq!(rt;
        flight.reading(),
        Reading {
            mass: 59925397500,
            fuel: 9925397500,
            minimum: false,
        }
    );
    let cruise = flight.leg(2, figures(30000, 4500, 280, 60))?;
    assert_eq!(rt;
        cruise,
        Flown {
            configuration: Configuration::Cruise,
            thrust: 35572661,
            drag: 35572661,
            flow: 36106250,
            burn: 36106250,
            limited: false,
        }
    );
    assert_eq!(rt;
        flight.reading(),
        Reading {
            mass: 59889291250,
            fuel: 9889291250,
            minimum: false,
        }
    );
    assert_eq!(rt;
        number(flight.leg(2, figures(30000, 4500, 280, 61))),
        Some(20)
    );
    flight.jettison(100000)?;
    assert_eq!(rt;
        flight.reading(),
        Reading {
            mass: 59789291250,
            fuel: 9789291250,
            minimum: false,
        }
    );
    Ok(())
}

#[test]
fn sample_hop(rt: HostRuntime) -> Result<(), Fail> {
    let hop = fly_hop(
        sample_jet::aircraft(),
        Jet {
            coefficients: sample_jet::coefficients(),
        },
        Bench::new(45000, 0)?,
        50000000,
        10000000,
        figures(30000, 4500, 280, 60),
    )?;
    assert_eq!(rt; number(hop.uplifted), None);
    assert_eq!(rt; number(hop.flown), None);
    assert_eq!(rt; number(hop.landed), None);
    assert_eq!(rt;
        hop.reading,
        Reading {
            mass: 59925397500,
            fuel: 9925397500,
            minimum: false,
        }
    );
    Ok(())
}

#[test]
fn calls_on_stand(rt: HostRuntime) -> Result<(), Fail> {
    let mut flight = on_stand()?;
    assert_eq!(rt;
        number(flight.leg(2, figures(30000, 4500, 280, 60))),
        Some(16)
    );
    assert_eq!(rt;
        number(flight.leg(3, figures(30000, 4500, 280, 60))),
        Some(16)
    );
    assert_eq!(rt; number(flight.jettison(1)), Some(16));
    assert_eq!(rt; number(flight.touchdown()), Some(16));
    assert_eq!(rt;
        flight.reading(),
        Reading {
            mass: 60000000000,
            fuel: 10000000000,
            minimum: false,
        }
    );
    assert_eq!(rt; number(flight.uplift(1)), None);
    assert_eq!(rt;
        flight.reading(),
        Reading {
            mass: 60000001000,
            fuel: 10000001000,
            minimum: false,
        }
    );
    assert_eq!(rt; number(flight.leg(1, figures(30000, 4500, 280, 60))), None);
    assert_eq!(rt; number(flight.leg(2, figures(30000, 4500, 280, 60))), None);
    Ok(())
}

#[test]
fn calls_in_the_air(rt: HostRuntime) -> Result<(), Fail> {
    let mut flight = in_the_air()?;
    assert_eq!(rt; number(flight.uplift(1)), Some(16));
    assert_eq!(rt;
        flight.reading(),
        Reading {
            mass: 59925397500,
            fuel: 9925397500,
            minimum: false,
        }
    );
    assert_eq!(rt; number(flight.leg(1, figures(30000, 4500, 280, 60))), None);
    assert_eq!(rt; number(flight.leg(2, figures(30000, 4500, 280, 60))), None);
    assert_eq!(rt; number(flight.leg(3, figures(30000, 4500, 280, 60))), None);
    assert_eq!(rt; number(flight.jettison(1)), None);
    assert_eq!(rt; number(flight.touchdown()), None);
    assert_eq!(rt; number(flight.touchdown()), Some(16));
    assert_eq!(rt; number(flight.uplift(1)), None);
    Ok(())
}

#[test]
fn refused_starts(rt: HostRuntime) -> Result<(), Fail> {
    assert_eq!(rt; starting(1000000001, 0, None)?, Some(13));
    assert_eq!(rt; starting(50000000, 1000000001, None)?, Some(13));
    assert_eq!(rt; starting(39999999, 0, Some(1000000001))?, Some(13));
    assert_eq!(rt; starting(39999999, 1000000000, Some(1000000000))?, Some(14));
    assert_eq!(rt; starting(50000000, 30000001, None)?, Some(24));
    assert_eq!(rt; starting(40000000, 40000000, Some(1000000000))?, None);
    Ok(())
}

#[test]
fn marks(rt: HostRuntime) -> Result<(), Fail> {
    assert!(rt; !marked(None)?);
    assert!(rt; !marked(Some(10000000))?);
    assert!(rt; marked(Some(10000001))?);
    Ok(())
}

#[test]
fn refused_uplifts(rt: HostRuntime) -> Result<(), Fail> {
    let mut flight = on_stand()?;
    assert_eq!(rt; number(flight.uplift(0)), Some(13));
    assert_eq!(rt; number(flight.uplift(1000000001)), Some(13));
    assert_eq!(rt; number(flight.uplift(20000001)), Some(24));
    assert_eq!(rt; number(flight.uplift(20000000)), None);
    let mut airborne = in_the_air()?;
    assert_eq!(rt; number(airborne.uplift(0)), Some(13));
    assert_eq!(rt; number(airborne.uplift(1000000000)), Some(16));
    Ok(())
}

#[test]
fn refused_jettisons(rt: HostRuntime) -> Result<(), Fail> {
    let mut flight = on_stand()?;
    assert_eq!(rt; number(flight.jettison(0)), Some(13));
    assert_eq!(rt; number(flight.jettison(1000000000)), Some(16));
    let mut airborne = in_the_air()?;
    assert_eq!(rt; number(airborne.jettison(1000000001)), Some(13));
    assert_eq!(rt; number(airborne.jettison(9925398)), Some(25));
    assert_eq!(rt; number(airborne.jettison(9925397)), None);
    assert_eq!(rt;
        airborne.reading(),
        Reading {
            mass: 50000000500,
            fuel: 500,
            minimum: false,
        }
    );
    Ok(())
}

#[test]
fn refused_legs(rt: HostRuntime) -> Result<(), Fail> {
    let mut flight = on_stand()?;
    assert_eq!(rt; number(flight.leg(4, figures(40001, 299, 19, 0))), Some(15));
    assert_eq!(rt; number(flight.leg(2, figures(40001, 299, 19, 0))), Some(16));
    assert_eq!(rt; number(flight.leg(1, figures(40001, 299, 19, 0))), Some(17));
    assert_eq!(rt; number(flight.leg(1, figures(40000, 299, 19, 0))), Some(18));
    assert_eq!(rt; number(flight.leg(1, figures(40000, 300, 19, 0))), Some(19));
    assert_eq!(rt; number(flight.leg(1, figures(40000, 300, 20, 0))), Some(20));
    assert_eq!(rt; number(flight.leg(1, figures(40000, 300, 20, 1))), Some(22));
    let mut refusing = with_kind(thirsty(), 1)?;
    assert_eq!(rt;
        number(refusing.leg(1, figures(30000, 300, 280, 60))),
        Some(22)
    );
    assert_eq!(rt;
        number(refusing.leg(1, figures(30000, 4500, 280, 60))),
        Some(23)
    );
    let mut short = with_kind(
        Jet {
            coefficients: sample_jet::coefficients(),
        },
        1,
    )?;
    assert_eq!(rt;
        number(short.leg(1, figures(30000, 4500, 280, 60))),
        Some(25)
    );
    assert_eq!(rt;
        number(short.leg(2, figures(30000, 4500, 280, 60))),
        Some(16)
    );
    Ok(())
}

// Descents of a minute, up to the first that is refused.
fn descend(flight: &mut Flight<Jet, Bench>, minutes: u64) -> Result<(), Refusal> {
    for _ in 0..minutes {
        let _ = flight.leg(3, figures(30000, 4500, 280, 60))?;
    }
    Ok(())
}

#[test]
fn a_million_seconds(rt: HostRuntime) -> Result<(), Fail> {
    let mut flight = with_kind(sipping(), 10000000)?;
    assert_eq!(rt; number(flight.leg(1, figures(30000, 4500, 280, 60))), None);
    let climbed = flight.reading().mass;
    assert_eq!(rt; number(descend(&mut flight, 16665)), None);
    assert_eq!(rt;
        number(flight.leg(3, figures(30000, 4500, 280, 41))),
        Some(21)
    );
    assert_eq!(rt; number(flight.touchdown()), None);
    assert_eq!(rt;
        number(flight.leg(1, figures(30000, 4500, 280, 41))),
        Some(21)
    );
    assert_eq!(rt;
        number(flight.leg(1, figures(30000, 300, 280, 41))),
        Some(21)
    );
    assert_eq!(rt; number(flight.leg(1, figures(30000, 4500, 280, 40))), None);
    assert_eq!(rt;
        number(flight.leg(3, figures(30000, 4500, 280, 1))),
        Some(21)
    );
    assert!(rt; climbed > flight.reading().mass);
    Ok(())
}
