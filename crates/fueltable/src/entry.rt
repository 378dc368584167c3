// An entry of the table: a flow as computed and as printed.
ghost use Rattle.std.specs.Prelude.{◌≡◌, ◌/◌};
ghost use Rattle.fueltable.specs.Table.{difference_of};

use crate::column::Column;
use crate::figures::Thousandths;
use crate::row::{Cell, Row};
use air::standard::Standard;
use aircraft::record::Aircraft;
use engine::any::AnyKind;
use flight::flight::Flight;
use flight::start::Start;
use leg::figures::Figures;
use leg::flown::Flown;
use refusal::refusal::Refusal;
use std::fmt;

#[derive(Clone, Copy)]
pub(crate) struct Entry {
    level: u16,
    cell: Cell,
    outcome: Result<Flown, Refusal>,
}

// A leg of one second on the standard day. A flight leaves the stand by a climb, so one second of it comes first.
fn flown(aircraft: &Aircraft, row: &Row, cell: Cell) -> Result<Flown, Refusal> {
    let zero_fuel = aircraft.masses.minimum;
    let start = Start {
        zero_fuel,
        fuel: cell.column.mass(aircraft).saturating_sub(zero_fuel),
        reserve: None,
    };
    let climb = Figures {
        altitude: row.level as u64 * 100,
        speed: row.climb.0 as u64,
        calibrated: row.calibrated as u64,
        seconds: 1,
    };
    let mut flight = Flight::start(*aircraft, AnyKind::from(aircraft), Standard, start)?;
    let climbed = flight.leg(Column::Climb.phase(), climb)?;
    match cell.column {
        Column::Climb => Ok(climbed),
        column => flight.leg(
            column.phase(),
            Figures {
                speed: cell.speed.0 as u64,
                ..climb
            },
        ),
    }
}

// The flow in whole g/min.
fn flow_of(flown: Flown) -> Thousandths
    ensures { result.0 ≡ flown.flow / 1000 }
{
    Thousandths(flown.flow / 1000)
}

impl Entry {
    pub(crate) fn new(aircraft: &Aircraft, row: &Row, cell: Cell) -> Entry {
        Entry {
            level: row.level,
            cell,
            outcome: flown(aircraft, row, cell),
        }
    }

    // How far the flow is from the printed one.
    pub(crate) fn difference(&self) -> Option<Thousandths>
        ensures { result ≡ difference_of self.now.outcome self.now.cell.printed }
    {
        let flow = flow_of(self.outcome.ok()?);
        let printed = Thousandths::from(self.cell.printed?);
        Some(Thousandths(flow.0.abs_diff(printed.0)))
    }
}

// The computed flow, and beside it the printed one and how far it is above or below that.
impl fmt::Display for Entry {
    fn fmt<W: fmt::Write>(&self, f: &mut fmt::Formatter<W>) -> fmt::Result {
        let Cell {
            column,
            speed,
            printed,
        } = self.cell;
        write!(f, "FL{:>4}  {column:<14}  {speed:>5}", self.level)?;
        let flown = match self.outcome {
            Ok(flown) => flown,
            Err(refusal) => return write!(f, "  no {refusal}"),
        };
        let flow = flow_of(flown);
        write!(f, "  {}  {flow:>8}", flown.configuration)?;
        let (Some(printed), Some(apart)) = (printed, self.difference()) else {
            return Ok(());
        };
        let sign = if flow < Thousandths::from(printed) {
            "-"
        } else {
            "+"
        };
        write!(f, "  {printed:>7}  {sign}{apart}")
    }
}
