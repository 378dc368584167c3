// The aircraft record. Every range is an invariant of its types, so no aircraft outside them exists.
ghost use Rattle.std.specs.Prelude.{◌≤◌, pos, negsuc, ◌≤ℤ◌};

// Masses in grams.
#[derive(Clone, Copy, Debug)]
pub struct Masses {
    pub reference: u64,
    pub minimum: u64,
    pub maximum: u64,
    ghost light: { 200000 ≤ minimum },
    ghost lower: { minimum ≤ reference },
    ghost upper: { reference ≤ maximum },
    ghost heavy: { maximum ≤ 900000000 },
}

// One configuration: stall speed in 0.001 kt, drag coefficients in 10⁻⁸.
#[derive(Clone, Copy, Debug)]
pub struct Row {
    pub stall: u64,
    pub cd0: u64,
    pub cd2: u64,
    ghost slowest: { 20000 ≤ stall },
    ghost fastest: { stall ≤ 250000 },
    ghost parasitic: { cd0 ≤ 47000000 },
    ghost induced: { cd2 ≤ 47000000 },
}

// The five configurations; the clean one has some drag.
#[derive(Clone, Copy, Debug)]
pub struct Rows {
    pub cruise: Row,
    pub initial: Row,
    pub takeoff: Row,
    pub approach: Row,
    pub landing: Row,
    ghost clean: { 100000 ≤ cruise.cd0 },
}

// Descent thrust factors in 10⁻⁸, and the level in ft that parts low from high.
#[derive(Clone, Copy, Debug)]
pub struct Descent {
    pub low: u64,
    pub high: u64,
    pub level: u64,
    pub approach: u64,
    pub landing: u64,
    ghost low_most: { low ≤ 100000000 },
    ghost high_most: { high ≤ 100000000 },
    ghost level_most: { level ≤ 60000 },
    ghost approach_most: { approach ≤ 100000000 },
    ghost landing_most: { landing ≤ 100000000 },
}

// How thrust falls in warm air: CTc4 in 10⁻⁴ K, CTc5 in 10⁻⁸ per K.
#[derive(Clone, Copy, Debug)]
pub struct Temperature {
    pub ctc4: i64,
    pub ctc5: u64,
    ghost cold: { negsuc 989999 ≤ℤ ctc4 },
    ghost warm: { ctc4 ≤ℤ pos 990000 },
    ghost steep: { ctc5 ≤ 10000000 },
}

// Fuel coefficients of jets and turboprops: Cf1 in 10⁻⁸, Cf2 in 0.01 kt, Cf3 in mg/min, Cf4 in ft.
#[derive(Clone, Copy, Debug)]
pub struct Fuel {
    pub cf1: u64,
    pub cf2: u64,
    pub cf3: u64,
    pub cf4: u64,
    ghost cf1_least: { 1000000 ≤ cf1 },
    ghost cf1_most: { cf1 ≤ 1000000000 },
    ghost cf2_least: { 10000 ≤ cf2 },
    ghost cf2_most: { cf2 ≤ 999990000 },
    ghost cf3_least: { 10000 ≤ cf3 },
    ghost cf3_most: { cf3 ≤ 1000000000 },
    ghost cf4_least: { 10000 ≤ cf4 },
    ghost cf4_most: { cf4 ≤ 99999000 },
}

// Two records for two engines: they share names of coefficients, but hardly a unit or a range.
// A jet: CTc1 in mN, CTc2 in ft, CTc3 in 10⁻¹⁶ ft⁻².
#[derive(Clone, Copy, Debug)]
pub struct JetCoefficients {
    pub ctc1: u64,
    pub ctc2: u64,
    pub ctc3: u64,
    pub fuel: Fuel,
    ghost ctc1_least: { 100000 ≤ ctc1 },
    ghost ctc1_most: { ctc1 ≤ 2000000000 },
    ghost ctc2_least: { 10000 ≤ ctc2 },
    ghost ctc2_most: { ctc2 ≤ 999990 },
    ghost ctc3_most: { ctc3 ≤ 9999900 },
}

// A turboprop: CTc1 in 0.001 kt·N, CTc2 in ft, CTc3 in mN.
#[derive(Clone, Copy, Debug)]
pub struct TurbopropCoefficients {
    pub ctc1: u64,
    pub ctc2: u64,
    pub ctc3: i64,
    pub fuel: Fuel,
    ghost ctc1_most: { ctc1 ≤ 99999000000 },
    ghost ctc2_least: { 10000 ≤ ctc2 },
    ghost ctc2_most: { ctc2 ≤ 999990 },
    ghost ctc3_least: { negsuc 999999999 ≤ℤ ctc3 },
    ghost ctc3_most: { ctc3 ≤ℤ pos 1000000000 },
}

// Thrust and fuel coefficients by engine.
#[derive(Clone, Copy, Debug)]
pub enum Engine {
    Jet(JetCoefficients),
    Turboprop(TurbopropCoefficients),
}

// Maximum altitude in ft, wing area in 0.001 m², the gear's CD0 in 10⁻⁸, the cruise factor Cfcr in 10⁻⁵.
#[derive(Clone, Copy, Debug)]
pub struct Aircraft {
    pub engine: Engine,
    pub masses: Masses,
    pub ceiling: u64,
    pub wing: u64,
    pub rows: Rows,
    pub gear: u64,
    pub temperature: Temperature,
    pub descent: Descent,
    pub cruise: u64,
    ghost ceiling_least: { 1000 ≤ ceiling },
    ghost ceiling_most: { ceiling ≤ 60000 },
    ghost wing_least: { 5000 ≤ wing },
    ghost wing_most: { wing ≤ 1000000 },
    ghost gear_most: { gear ≤ 47000000 },
    ghost cruise_least: { 50000 ≤ cruise },
    ghost cruise_most: { cruise ≤ 200000 },
}
