// One data line is taken into the plain record.
ghost use Rattle.std.specs.Prelude.{◌≡◌};
ghost use Rattle.opf.specs.Faults.{first_of};
ghost use Rattle.opf.specs.Lines.{line_fields};
ghost use Rattle.opf.specs.DataLines.{faults_at, configuration_faults, configuration_of, row_of};
ghost use Rattle.opf.specs.Steps.{filled, rows_with, after_line, Takes};

use crate::line::DataLine;
use crate::{quantities, reading};
use aircraft::draft::{Draft, DraftConsumption, DraftIdle};
use aircraft::words::Configuration;
use refusal::fault::Fault;

// A configuration line fills its own row.
fn take_row(draft: &mut Draft, line: &DataLine) -> Result<(), Fault>
    ensures { Takes result (first_of (configuration_faults line.now.number (filled draft.old) (line_fields line.now))) draft.new (after_line 5 draft.old (line_fields line.now)) }
{
    let last = line.at_least(6)?;
    let unknown = line.word_fault(2);
    let c = Configuration::try_from(line.field(2)).map_err(|_| unknown)?;
    if draft.rows[c.row()].is_some() {
        return Err(unknown);
    }
    let row = reading::row(line, last, c)?;
    draft.fill(c, row);
    Ok(())
}

// The data line that comes at `place`, counted from 1.
pub(crate) fn take_line(draft: &mut Draft, place: u32, line: &DataLine) -> Result<(), Fault>
    ensures { Takes result (first_of (faults_at place line.now.number draft.old.engine (filled draft.old) (line_fields line.now))) draft.new (after_line place draft.old (line_fields line.now)) }
{
    // The place is the layout of a file: each line there has fields of its own, so a match says it best.
    match place {
        1 => draft.engine = reading::engine(line)?,
        2 => draft.masses = reading::masses(line)?,
        3 => draft.ceiling = reading::one(line, 3, quantities::CEILING)?,
        4 => draft.wing = reading::one(line, 2, quantities::WING_AREA)?,
        5..=9 => return take_row(draft, line),
        13 => draft.gear = reading::one(line, 3, quantities::DRAG)?,
        16 => draft.thrust = reading::thrust(line, draft.engine)?,
        17 => draft.descent = reading::descent(line)?,
        19 => {
            let (cf1, cf2) = reading::two(line, quantities::CF1, quantities::CF2)?;
            draft.consumption = DraftConsumption { cf1, cf2 };
        }
        20 => {
            let (cf3, cf4) = reading::two(line, quantities::CF3, quantities::CF4)?;
            draft.idle = DraftIdle { cf3, cf4 };
        }
        21 => draft.cruise = reading::one(line, 1, quantities::CRUISE_FACTOR)?,
        _ => {}
    }
    Ok(())
}
