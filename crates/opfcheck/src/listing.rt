// What is printed of a file: a line for each coefficient, or the line of its fault.
ghost use Rattle.std.specs.Prelude.{Some};
ghost use Rattle.opfcheck.specs.Listing.{fault_text, masses_text, row_text, rows_text, thrust_text, descent_text, fuel_text, listing_text};

use aircraft::record::{Aircraft, Descent, Engine, Fuel, Masses, Row, Rows, Temperature};
use aircraft::words::{Configuration, EngineType};
use refusal::fault::Fault;
use std::fmt;

// The lines that are printed of a value.
#[derive(Clone, Copy)]
pub(crate) struct Lines<'a, T>(pub(crate) &'a T);

impl fmt::Display for Lines<'_, Fault> {
    ghost output = { λ v. Some (fault_text v.0.now) };

    fn fmt<W: fmt::Write>(&self, f: &mut fmt::Formatter<W>) -> fmt::Result {
        write!(f, "no {} {}\n", self.0, self.0.layer())
    }
}

impl fmt::Display for Lines<'_, Masses> {
    ghost output = { λ v. Some (masses_text v.0.now) };

    fn fmt<W: fmt::Write>(&self, f: &mut fmt::Formatter<W>) -> fmt::Result {
        let m = self.0;
        write!(
            f,
            "mass_ref {}\nmass_min {}\nmass_max {}\n",
            m.reference, m.minimum, m.maximum
        )
    }
}

// One configuration.
impl fmt::Display for Lines<'_, (Configuration, Row)> {
    ghost output = { λ v. Some (row_text v.0.now.0 v.0.now.1) };

    fn fmt<W: fmt::Write>(&self, f: &mut fmt::Formatter<W>) -> fmt::Result {
        let (c, row) = self.0;
        write!(f, "stall_{c} {}\n", row.stall)?;
        write!(f, "cd0_{c} {}\ncd2_{c} {}\n", row.cd0, row.cd2)
    }
}

impl fmt::Display for Lines<'_, Rows> {
    ghost output = { λ v. Some (rows_text v.0.now) };

    fn fmt<W: fmt::Write>(&self, f: &mut fmt::Formatter<W>) -> fmt::Result {
        let rows = self.0;
        write!(
            f,
            "{}{}{}{}{}",
            Lines(&(Configuration::Cruise, rows.cruise)),
            Lines(&(Configuration::InitialClimb, rows.initial)),
            Lines(&(Configuration::TakeOff, rows.takeoff)),
            Lines(&(Configuration::Approach, rows.approach)),
            Lines(&(Configuration::Landing, rows.landing))
        )
    }
}

// The five thrust coefficients, by engine.
impl fmt::Display for Lines<'_, (Engine, Temperature)> {
    ghost output = { λ v. Some (thrust_text v.0.now.0 v.0.now.1) };

    fn fmt<W: fmt::Write>(&self, f: &mut fmt::Formatter<W>) -> fmt::Result {
        let (engine, t) = self.0;
        let (ctc1, ctc2, ctc3) = match engine {
            Engine::Jet(c) => (c.ctc1, c.ctc2, c.ctc3 as i64),
            Engine::Turboprop(c) => (c.ctc1, c.ctc2, c.ctc3),
        };
        write!(
            f,
            "ctc1 {ctc1}\nctc2 {ctc2}\nctc3 {ctc3}\nctc4 {}\nctc5 {}\n",
            t.ctc4, t.ctc5
        )
    }
}

impl fmt::Display for Lines<'_, Descent> {
    ghost output = { λ v. Some (descent_text v.0.now) };

    fn fmt<W: fmt::Write>(&self, f: &mut fmt::Formatter<W>) -> fmt::Result {
        let d = self.0;
        write!(
            f,
            "desc_low {}\ndesc_high {}\ndesc_level {}\ndesc_ap {}\ndesc_ld {}\n",
            d.low, d.high, d.level, d.approach, d.landing
        )
    }
}

impl fmt::Display for Lines<'_, Fuel> {
    ghost output = { λ v. Some (fuel_text v.0.now) };

    fn fmt<W: fmt::Write>(&self, f: &mut fmt::Formatter<W>) -> fmt::Result {
        let fuel = self.0;
        write!(
            f,
            "cf1 {}\ncf2 {}\ncf3 {}\ncf4 {}\n",
            fuel.cf1, fuel.cf2, fuel.cf3, fuel.cf4
        )
    }
}

// Every coefficient.
impl fmt::Display for Lines<'_, Aircraft> {
    ghost output = { λ v. Some (listing_text v.0.now) };

    fn fmt<W: fmt::Write>(&self, f: &mut fmt::Formatter<W>) -> fmt::Result {
        let a = self.0;
        write!(
            f,
            "engine {}\n{}alt_max {}\nwing_area {}\n",
            EngineType::from(&a.engine),
            Lines(&a.masses),
            a.ceiling,
            a.wing
        )?;
        write!(f, "{}gear_cd0 {}\n", Lines(&a.rows), a.gear)?;
        write!(
            f,
            "{}{}{}cfcr {}\n",
            Lines(&(a.engine, a.temperature)),
            Lines(&a.descent),
            Lines(&a.engine.fuel()),
            a.cruise
        )
    }
}
