// The figures of a table. A width that is asked of one is that of its whole text.
// Two types: one with a constant for its decimals would need a power of ten, and a proof that it is not 0.
ghost use Rattle.std.specs.Prelude.{◌≡◌, ◌*◌};

use std::fmt;
use std::num::ParseIntError;
use std::str::FromStr;

// A speed in 0.1 kt, or a printed flow in 0.1 kg/min.
#[derive(Clone, Copy, PartialEq, Eq, PartialOrd, Ord)]
pub(crate) struct Tenths(pub(crate) u32);

// A flow in g/min, which is shown in kg/min.
#[derive(Clone, Copy, PartialEq, Eq, PartialOrd, Ord)]
pub(crate) struct Thousandths(pub(crate) u64);

impl From<Tenths> for Thousandths {
    ghost from_gives = { λ t n. n.0 ≡ t.0 * 100 };

    fn from(tenths: Tenths) -> Thousandths {
        Thousandths(tenths.0 as u64 * 100)
    }
}

// A word that is no figure, or a line that is no row.
#[derive(Clone, Copy)]
pub(crate) struct NoFigure;

impl From<ParseIntError> for NoFigure {
    fn from(_: ParseIntError) -> NoFigure {
        NoFigure
    }
}

// A whole number, or one with a point and one digit behind it.
impl FromStr for Tenths {
    type Err = NoFigure;

    fn from_str(word: &str) -> Result<Tenths, NoFigure> {
        let (whole, tenth) = word.split_once('.').unwrap_or((word, "0"));
        if tenth.len() != 1 {
            return Err(NoFigure);
        }
        Ok(Tenths(whole.parse::<u16>()? as u32 * 10 + tenth.parse::<u8>()? as u32))
    }
}

impl fmt::Display for Tenths {
    fn fmt<W: fmt::Write>(&self, f: &mut fmt::Formatter<W>) -> fmt::Result {
        let whole = f.width().unwrap_or(0).saturating_sub(2);
        write!(f, "{:>whole$}.{}", self.0 / 10, self.0 % 10)
    }
}

impl fmt::Display for Thousandths {
    fn fmt<W: fmt::Write>(&self, f: &mut fmt::Formatter<W>) -> fmt::Result {
        let whole = f.width().unwrap_or(0).saturating_sub(4);
        write!(f, "{:>whole$}.{:03}", self.0 / 1000, self.0 % 1000)
    }
}
