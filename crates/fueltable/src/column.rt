// The columns of a performance table: cruise at three masses, climb and descent.
ghost use Rattle.std.specs.Prelude.{◌≡◌};
ghost use Rattle.fueltable.specs.Table.{column_mass};

use aircraft::record::Aircraft;
use std::fmt;

#[derive(Clone, Copy)]
pub(crate) enum Column {
    Low,
    Nominal,
    High,
    Climb,
    Descent,
}

impl Column {
    // A leg names its phase by a number, since it refuses an unknown one.
    pub(crate) fn phase(self) -> u64 {
        match self {
            Column::Climb => 1,
            Column::Low | Column::Nominal | Column::High => 2,
            Column::Descent => 3,
        }
    }

    // The mass in grams: 1.2 times the minimum, the maximum, or the reference mass.
    pub(crate) fn mass(self, aircraft: &Aircraft) -> u64
        ensures { result ≡ column_mass self aircraft.now }
    {
        match self {
            Column::Low => aircraft.masses.minimum * 12 / 10,
            Column::High => aircraft.masses.maximum,
            Column::Nominal | Column::Climb | Column::Descent => aircraft.masses.reference,
        }
    }
}

impl fmt::Display for Column {
    fn fmt<W: fmt::Write>(&self, f: &mut fmt::Formatter<W>) -> fmt::Result {
        f.pad(match self {
            Column::Low => "cruise low",
            Column::Nominal => "cruise nominal",
            Column::High => "cruise high",
            Column::Climb => "climb",
            Column::Descent => "descent",
        })
    }
}
