// A data line in its place.
ghost use Rattle.std.specs.Prelude.{◌≡◌, ◌≤◌, List, [], ◌∷◌, ◌++◌, length};
ghost use Rattle.opf.specs.Fields.{fields};
ghost use Rattle.opf.specs.Lines.{done};
ghost use Rattle.opf.specs.DataLines.{Fields, data_fault};
ghost use Rattle.opf.specs.Progress.{HasRead, ReadsLine};

use crate::fields::up_to_slash;
use crate::line::DataLine;
use crate::progress::Progress;
use crate::take::take_line;
use refusal::fault::Fault;

impl Progress {
    // Reads the data line that comes next; there are at most 22.
    pub(crate) fn take_data(&mut self, number: u32, rest: &[u8]) -> Result<(), Fault>
        requires { length rest.now ≤ 160 }
        ensures { (d : List Fields) → HasRead self.old d → ReadsLine result (data_fault number d (fields rest.now)) done self.new (d ++ (fields rest.now ∷ [])) }
    {
        if self.place > 22 {
            return Err(Fault::DataLines { line: number });
        }
        let line = DataLine {
            number,
            text: up_to_slash(rest),
        };
        take_line(&mut self.draft, self.place, &line)?;
        self.place += 1;
        Ok(())
    }
}
