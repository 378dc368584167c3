// The line of a refused aircraft file.
ghost use Rattle.std.specs.Prelude.{Some};
ghost use Rattle.sheet.specs.Texts.{fault_text};

use refusal::fault::Fault;
use std::fmt;

// A type of its own: the claim about the whole line, byte for byte, stands on it.
#[derive(Clone, Copy)]
pub struct FaultLine {
    pub fault: Fault,
}

impl fmt::Display for FaultLine {
    ghost output = { λ v. Some (fault_text v.fault) };

    fn fmt<W: fmt::Write>(&self, f: &mut fmt::Formatter<W>) -> fmt::Result {
        let fault = self.fault;
        write!(f, "no {fault}\n")
    }
}
