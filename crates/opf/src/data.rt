// What is read of a data line.
ghost use Rattle.std.specs.Prelude.{◌≡◌, ◌≤◌, length};
ghost use Rattle.refusal.specs.declared.fault.Fault.TheVariants as fault;
ghost use Rattle.opf.specs.Faults.{Judges};
ghost use Rattle.opf.specs.Fields.{field};
ghost use Rattle.opf.specs.DataLines.{count_fault, counted_fault, counted};
ghost use Rattle.opf.specs.Lines.{line_fields};

use crate::fields::{field_at, field_count};
use crate::line::DataLine;
use crate::number::{Number, Quantity};
use crate::numbers::Counted;
use refusal::fault::Fault;

impl DataLine<'_> {
    pub(crate) fn field_count(&self) -> u32
        ensures { result ≡ length (line_fields self.now) }
    {
        field_count(self.text) as u32
    }

    // Field k, counted from 1; empty where there is none.
    pub(crate) fn field(&self, k: u32) -> &[u8]
        ensures { result.now ≡ field (line_fields self.now) k }
    {
        field_at(self.text, k.saturating_sub(1) as usize)
    }

    // Field k is a word that does not fit.
    pub(crate) fn word_fault(&self, k: u32) -> Fault
        ensures { result ≡ fault.Word self.now.number k }
    {
        Fault::Word {
            line: self.number,
            field: k,
        }
    }

    // How many fields there are: at least k.
    pub(crate) fn at_least(&self, k: u32) -> Result<u32, Fault>
        ensures { Judges result (count_fault self.now.number (line_fields self.now) k) (length (line_fields self.now)) }
    {
        let n = self.field_count();
        if n < k {
            return Err(Fault::FieldCount { line: self.number });
        }
        Ok(n)
    }

    // Field k as a count within its range.
    pub(crate) fn count<T: Counted>(&self, k: u32, q: Quantity<T>) -> Result<T, Fault>
        ensures { Judges result (counted_fault T.reads self.now.number (line_fields self.now) k q) (counted T.reads T.none (line_fields self.now) k q) }
    {
        let line = self.number;
        let field = k;
        let x = Number::read(self.field(k)).ok_or(Fault::NumberForm { line, field })?;
        T::counted(x, q).ok_or(Fault::Value { line, field })
    }
}
