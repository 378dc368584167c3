// What is read of each data line.
ghost use Rattle.std.specs.Prelude.{◌≡◌, length, Some};
ghost use Rattle.opf.specs.Faults.{first_of, Judges};
ghost use Rattle.opf.specs.Lines.{line_fields};
ghost use Rattle.opf.specs.DataLines.{engine_faults, engine_of, masses_faults, masses_of, natural, one_faults, configuration_of, row_faults, row_of, thrust_faults, thrust_of, descent_faults, descent_of, two_faults};

use crate::line::DataLine;
use crate::number::Quantity;
use crate::quantities;
use aircraft::draft::{DraftDescent, DraftMasses, DraftRow, DraftThrust};
use aircraft::words::{Configuration, EngineType};
use refusal::fault::Fault;

pub(crate) fn engine(line: &DataLine) -> Result<EngineType, Fault>
    ensures { Judges result (first_of (engine_faults line.now.number (line_fields line.now))) (engine_of (line_fields line.now)) }
{
    line.at_least(4)?;
    let unknown = line.word_fault(4);
    EngineType::try_from(line.field(4)).map_err(|_| unknown)
}

pub(crate) fn masses(line: &DataLine) -> Result<DraftMasses, Fault>
    ensures { Judges result (first_of (masses_faults line.now.number (line_fields line.now))) (masses_of (line_fields line.now)) }
{
    line.at_least(3)?;
    let reference = line.count(1, quantities::MASS)?;
    let minimum = line.count(2, quantities::MASS)?;
    let maximum = line.count(3, quantities::MASS)?;
    if minimum > reference || reference > maximum {
        return Err(Fault::MassOrder { line: line.number });
    }
    Ok(DraftMasses {
        reference,
        minimum,
        maximum,
    })
}

// A data line of which one number is read, at field k.
pub(crate) fn one(line: &DataLine, k: u32, q: Quantity<u64>) -> Result<u64, Fault>
    ensures { Judges result (first_of (one_faults line.now.number (line_fields line.now) k q)) (natural (line_fields line.now) k q) }
{
    line.at_least(k)?;
    line.count(k, q)
}

// A data line of which fields 1 and 2 are read. Two functions, since the number of one is at a field of its own.
pub(crate) fn two(line: &DataLine, q: Quantity<u64>, r: Quantity<u64>) -> Result<(u64, u64), Fault>
    ensures { Judges result (first_of (two_faults line.now.number (line_fields line.now) q r)) (natural (line_fields line.now) 1 q, natural (line_fields line.now) 2 r) }
{
    line.at_least(2)?;
    Ok((line.count(1, q)?, line.count(2, r)?))
}

pub(crate) fn thrust(line: &DataLine, e: EngineType) -> Result<DraftThrust, Fault>
    ensures { Judges result (first_of (thrust_faults e line.now.number (line_fields line.now))) (thrust_of e (line_fields line.now)) }
{
    line.at_least(5)?;
    let ctc1 = line.count(1, quantities::ctc1(e))?;
    let ctc2 = line.count(2, quantities::CTC2)?;
    let ctc3 = line.count(3, quantities::ctc3(e))?;
    let ctc4 = line.count(4, quantities::CTC4)?;
    let ctc5 = line.count(5, quantities::CTC5)?;
    Ok(DraftThrust {
        ctc1,
        ctc2,
        ctc3,
        ctc4,
        ctc5,
    })
}

pub(crate) fn descent(line: &DataLine) -> Result<DraftDescent, Fault>
    ensures { Judges result (first_of (descent_faults line.now.number (line_fields line.now))) (descent_of (line_fields line.now)) }
{
    line.at_least(5)?;
    let low = line.count(1, quantities::DESCENT_FACTOR)?;
    let high = line.count(2, quantities::DESCENT_FACTOR)?;
    let level = line.count(3, quantities::DESCENT_LEVEL)?;
    let approach = line.count(4, quantities::DESCENT_FACTOR)?;
    let landing = line.count(5, quantities::DESCENT_FACTOR)?;
    Ok(DraftDescent {
        low,
        high,
        level,
        approach,
        landing,
    })
}

// The three numbers of a configuration line, which end one field before its last.
pub(crate) fn row(line: &DataLine, last: u32, c: Configuration) -> Result<DraftRow, Fault>
    requires all { last ≡ length (line_fields line.now) }
    requires named { configuration_of (line_fields line.now) ≡ Some c }
    ensures { Judges result (first_of (row_faults line.now.number (line_fields line.now))) (row_of (line_fields line.now)) }
{
    let stall = line.count(last.saturating_sub(3), quantities::STALL_SPEED)?;
    let cd0 = line.count(last.saturating_sub(2), quantities::parasitic_drag(c))?;
    let cd2 = line.count(last.saturating_sub(1), quantities::DRAG)?;
    Ok(DraftRow { stall, cd0, cd2 })
}
