// Engines at the worked figures, at the ends of their coefficients' ranges and at each refusal; the figures were worked out apart from this code.
use crate::any::AnyKind;
use crate::jet::Jet;
use crate::kind::Kind;
use crate::turboprop::Turboprop;
use aircraft::record::{Fuel, JetCoefficients, TurbopropCoefficients};
use refusal::refusal::Refusal;
use std::process::Abort;

fn sample() -> Jet {
    Jet {
        coefficients: sample_jet::coefficients(),
    }
}

fn least_fuel() -> Fuel {
    Fuel {
        cf1: 1000000,
        cf2: 10000,
        cf3: 10000,
        cf4: 10000,
    }
}

fn most_fuel() -> Fuel {
    Fuel {
        cf1: 1000000000,
        cf2: 999990000,
        cf3: 1000000000,
        cf4: 99999000,
    }
}

fn least_jet() -> Jet {
    Jet {
        coefficients: JetCoefficients {
            ctc1: 100000,
            ctc2: 10000,
            ctc3: 0,
            fuel: least_fuel(),
        },
    }
}

fn most_jet() -> Jet {
    Jet {
        coefficients: JetCoefficients {
            ctc1: 2000000000,
            ctc2: 999990,
            ctc3: 9999900,
            fuel: most_fuel(),
        },
    }
}

fn least_turboprop() -> Turboprop {
    Turboprop {
        coefficients: TurbopropCoefficients {
            ctc1: 0,
            ctc2: 10000,
            ctc3: -1000000000,
            fuel: least_fuel(),
        },
    }
}

fn most_turboprop() -> Turboprop {
    Turboprop {
        coefficients: TurbopropCoefficients {
            ctc1: 99999000000,
            ctc2: 999990,
            ctc3: 1000000000,
            fuel: most_fuel(),
        },
    }
}

// Checks thrust, nominal flow and idle flow at an altitude in ft, a speed in 0.1 kt and a thrust in mN.
fn answers<K: Kind>(
    rt: &impl Abort,
    kind: &K,
    at: (u64, u64, u64),
    thrust: Result<u64, Refusal>,
    nominal: Result<u64, Refusal>,
    idle: Result<u64, Refusal>,
) {
    assert_eq!(rt; kind.thrust(at.0, at.1), thrust);
    assert_eq!(rt; kind.nominal(at.1, at.2), nominal);
    assert_eq!(rt; kind.idle(at.0), idle);
}

#[test]
fn worked_figures(rt: HostRuntime) {
    answers(
        &rt,
        &sample(),
        (30000, 4500, 73500000),
        Ok(73500000),
        Ok(74602500),
        Ok(8400000),
    );
    answers(
        &rt,
        &AnyKind::Jet(sample()),
        (30000, 4500, 73500000),
        Ok(73500000),
        Ok(74602500),
        Ok(8400000),
    );
}

#[test]
fn refusals_in_order(rt: HostRuntime) {
    answers(
        &rt,
        &sample(),
        (60001, 299, 10000000001),
        Err(Refusal::TooHigh),
        Err(Refusal::Speed),
        Err(Refusal::TooHigh),
    );
    answers(
        &rt,
        &sample(),
        (60000, 299, 10000000001),
        Err(Refusal::Speed),
        Err(Refusal::Speed),
        Ok(4800000),
    );
    answers(
        &rt,
        &sample(),
        (60000, 7001, 0),
        Err(Refusal::Speed),
        Err(Refusal::Speed),
        Ok(4800000),
    );
    answers(
        &rt,
        &sample(),
        (60001, 7000, 10000000001),
        Err(Refusal::TooHigh),
        Err(Refusal::Flow),
        Err(Refusal::TooHigh),
    );
    answers(
        &rt,
        &sample(),
        (60000, 7000, 10000000000),
        Ok(24000000),
        Ok(11900000000),
        Ok(4800000),
    );
    answers(
        &rt,
        &most_jet(),
        (0, 299, 0),
        Err(Refusal::Speed),
        Err(Refusal::Speed),
        Ok(1000000000),
    );
    answers(
        &rt,
        &most_jet(),
        (0, 300, 0),
        Ok(2000000000),
        Err(Refusal::Flow),
        Ok(1000000000),
    );
}

#[test]
fn jets_at_the_ends(rt: HostRuntime) {
    answers(
        &rt,
        &least_jet(),
        (0, 300, 10000000000),
        Ok(100000),
        Ok(130000000),
        Ok(10000),
    );
    answers(
        &rt,
        &least_jet(),
        (9999, 7000, 10000000000),
        Ok(10),
        Ok(800000000),
        Ok(1),
    );
    answers(&rt, &least_jet(), (60000, 300, 0), Ok(0), Ok(0), Ok(0));
    answers(
        &rt,
        &most_jet(),
        (0, 300, 0),
        Ok(2000000000),
        Err(Refusal::Flow),
        Ok(1000000000),
    );
    answers(
        &rt,
        &most_jet(),
        (9999, 300, 0),
        Ok(2179959804),
        Err(Refusal::Flow),
        Ok(999900009),
    );
    answers(
        &rt,
        &most_jet(),
        (60000, 7000, 10000000000),
        Ok(9079926800),
        Err(Refusal::Flow),
        Ok(999399993),
    );
}

#[test]
fn turboprops_at_the_ends(rt: HostRuntime) {
    answers(
        &rt,
        &least_turboprop(),
        (0, 300, 10000000000),
        Ok(0),
        Ok(2100000),
        Ok(10000),
    );
    answers(
        &rt,
        &least_turboprop(),
        (9999, 999, 10000000000),
        Ok(0),
        Ok(9900),
        Ok(1),
    );
    answers(
        &rt,
        &least_turboprop(),
        (60000, 7000, 10000000000),
        Ok(0),
        Ok(0),
        Ok(0),
    );
    answers(
        &rt,
        &most_turboprop(),
        (0, 300, 10000000000),
        Ok(4333300000),
        Ok(2999990900),
        Ok(1000000000),
    );
    answers(
        &rt,
        &most_turboprop(),
        (9999, 4000, 10000000000),
        Ok(1247497750),
        Ok(39998399900),
        Ok(999900009),
    );
    answers(
        &rt,
        &most_turboprop(),
        (60000, 4001, 10000000000),
        Ok(1234938765),
        Err(Refusal::Flow),
        Ok(999399993),
    );
}
