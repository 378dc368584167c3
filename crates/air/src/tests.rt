// Days at the ends of their ranges and just outside.
use crate::bench::Bench;
use crate::day::Day;
use crate::days::AnyDay;
use crate::levels::Between;
use crate::standard::Standard;
use refusal::refusal::Refusal;
use std::test::Fail;

// The number by which a pair is refused.
fn refusal_of(density: u64, deviation: i64) -> Option<u8> {
    Bench::new(density, deviation).err().map(u8::from)
}

#[test]
fn between_two_levels(rt: HostRuntime) {
    let between = Between {
        x0: 122500,
        x1: 118000,
        h0: 0,
        h1: 1000,
        h: 333,
    };
    assert_eq!(rt; between.value(), 121001);
    let between = Between {
        x0: -300,
        x1: 200,
        h0: 1000,
        h1: 1300,
        h: 1001,
    };
    assert_eq!(rt; between.value(), -299);
    let between = Between {
        x0: 200,
        x1: -300,
        h0: 1000,
        h1: 1300,
        h: 1001,
    };
    assert_eq!(rt; between.value(), 198);
}

#[test]
fn standard_densities(rt: HostRuntime) {
    assert_eq!(rt; Standard.at(0), Ok((122500, 0)));
    assert_eq!(rt; Standard.at(333), Ok((121319, 0)));
    assert_eq!(rt; Standard.at(999), Ok((118958, 0)));
    assert_eq!(rt; Standard.at(18000), Ok((69815, 0)));
    assert_eq!(rt; Standard.at(38000), Ok((33199, 0)));
    assert_eq!(rt; Standard.at(59001), Ok((12099, 0)));
    assert_eq!(rt; Standard.at(59999), Ok((11532, 0)));
    assert_eq!(rt; Standard.at(60000), Ok((11532, 0)));
    assert_eq!(rt; Standard.at(60001), Err(Refusal::TooHigh));
}

#[test]
fn bench_pairs(rt: HostRuntime) {
    assert_eq!(rt; refusal_of(5000, -5000), None);
    assert_eq!(rt; refusal_of(150000, 5000), None);
    assert_eq!(rt; refusal_of(4999, 0), Some(11));
    assert_eq!(rt; refusal_of(150001, 0), Some(11));
    assert_eq!(rt; refusal_of(5000, -5001), Some(11));
    assert_eq!(rt; refusal_of(150000, 5001), Some(11));
}

#[test]
fn any_day(rt: HostRuntime) -> Result<(), Fail> {
    let bench = AnyDay::Bench(Bench::new(45000, -100)?);
    assert_eq!(rt; bench.at(0), Ok((45000, -100)));
    assert_eq!(rt; bench.at(60000), Ok((45000, -100)));
    assert_eq!(rt; bench.at(60001), Err(Refusal::TooHigh));
    assert_eq!(rt; AnyDay::Standard(Standard).at(10000), Ok((90464, 0)));
    assert_eq!(rt; u8::from(Refusal::TooHigh), 12);
    Ok(())
}
