// A row of a performance table: the speeds flown at a level, and the flows that the table prints for them.
use crate::column::Column;
use crate::figures::{NoFigure, Tenths};
use std::str::{FromStr, SplitAsciiWhitespace};

// What a row has in a column: the true airspeed, and the flow that the table prints.
#[derive(Clone, Copy)]
pub(crate) struct Cell {
    pub(crate) column: Column,
    pub(crate) speed: Tenths,
    pub(crate) printed: Option<Tenths>,
}

// The level in 100 ft, the speed of the climb to it, the calibrated airspeed in kt, and the columns that have a speed.
#[derive(Clone, Copy)]
pub(crate) struct Row {
    pub(crate) level: u16,
    pub(crate) climb: Tenths,
    pub(crate) calibrated: u32,
    pub(crate) cells: [Option<Cell>; 5],
}

// The next word as a figure, or as a hyphen in place of one.
fn figure(words: &mut SplitAsciiWhitespace<'_>) -> Result<Option<Tenths>, NoFigure> {
    match words.next() {
        None => Err(NoFigure),
        Some("-") => Ok(None),
        Some(word) => Ok(Some(word.parse()?)),
    }
}

// The row that a line's ten words give.
impl FromStr for Row {
    type Err = NoFigure;

    fn from_str(line: &str) -> Result<Row, NoFigure> {
        let mut words = line.split_ascii_whitespace();
        let level = words.next().ok_or(NoFigure)?.parse()?;
        let cruise = figure(&mut words)?;
        let low = figure(&mut words)?;
        let nominal = figure(&mut words)?;
        let high = figure(&mut words)?;
        let climb = figure(&mut words)?.ok_or(NoFigure)?;
        let climbing = figure(&mut words)?;
        let descent = figure(&mut words)?;
        let calibrated = figure(&mut words)?.ok_or(NoFigure)?;
        let descending = figure(&mut words)?;
        if words.next().is_some() {
            return Err(NoFigure);
        }
        let cell = |column, speed: Option<Tenths>, printed| {
            speed.map(|speed| Cell {
                column,
                speed,
                printed,
            })
        };
        Ok(Row {
            level,
            climb,
            calibrated: calibrated.0 / 10,
            cells: [
                cell(Column::Low, cruise, low),
                cell(Column::Nominal, cruise, nominal),
                cell(Column::High, cruise, high),
                cell(Column::Climb, Some(climb), climbing),
                cell(Column::Descent, descent, descending),
            ],
        })
    }
}
