// How far computed flows lie from the printed ones.
ghost use Rattle.std.specs.Prelude.{◌≤◌};
ghost use Rattle.fueltable.specs.Table.{farthest};

use crate::column::Column;
use crate::figures::Thousandths;
use std::fmt;

// The farthest that a computed flow may lie from the printed one.
const ALLOWED: Thousandths = Thousandths(200);

// Where the worst difference was last met.
#[derive(Clone, Copy)]
struct Worst {
    difference: Thousandths,
    level: u16,
    column: Column,
}

// How many flows were compared, how many of them are near enough, and the worst of them.
#[derive(Clone, Copy, Default)]
pub(crate) struct Tally {
    compared: u64,
    near: u64,
    worst: Option<Worst>,
}

impl Tally {
    // None that was counted is greater than the worst.
    pub(crate) fn add(&mut self, level: u16, column: Column, difference: Thousandths)
        ensures counted { difference.0 ≤ farthest self.new }
        ensures kept { farthest self.old ≤ farthest self.new }
    {
        self.compared = self.compared.saturating_add(1);
        if difference <= ALLOWED {
            self.near = self.near.saturating_add(1);
        }
        self.worst = self
            .worst
            .filter(|worst| difference < worst.difference)
            .or(Some(Worst {
                difference,
                level,
                column,
            }));
    }
}

impl fmt::Display for Tally {
    fn fmt<W: fmt::Write>(&self, f: &mut fmt::Formatter<W>) -> fmt::Result {
        let Some(worst) = self.worst else {
            return writeln!(f, "compared 0");
        };
        writeln!(
            f,
            "compared {}, within {ALLOWED} of the printed flow {}",
            self.compared, self.near
        )?;
        writeln!(
            f,
            "worst difference {}, at FL {} in {}",
            worst.difference, worst.level, worst.column
        )
    }
}
