// The numbers and words by which faults and refusals are known outside.
ghost use Rattle.std.specs.Prelude.{◌≡◌, Some, decimal};
ghost use Rattle.refusal.specs.Numbers.{fault_number, named_line, named_field, fault_figures, fault_layer, layer_word, refusal_number};

use crate::fault::{Fault, Layer};
use crate::refusal::Refusal;
use std::fmt;

impl From<Fault> for u8 {
    ghost from_gives = { λ f n. n ≡ fault_number f };

    fn from(fault: Fault) -> u8 {
        match fault {
            Fault::FileSize => 1,
            Fault::LineText { .. } => 2,
            Fault::LineStart { .. } => 3,
            Fault::DataLines { .. } => 4,
            Fault::FieldCount { .. } => 5,
            Fault::Word { .. } => 6,
            Fault::NumberForm { .. } => 7,
            Fault::Value { .. } => 8,
            Fault::NoEnd | Fault::AfterEnd { .. } => 9,
            Fault::MassOrder { .. } => 10,
        }
    }
}

impl Fault {
    // The line that it names.
    pub fn line(self) -> Option<u32>
        ensures { result ≡ named_line self }
    {
        match self {
            Fault::FileSize | Fault::NoEnd => None,
            Fault::LineText { line }
            | Fault::LineStart { line }
            | Fault::DataLines { line }
            | Fault::FieldCount { line }
            | Fault::Word { line, .. }
            | Fault::NumberForm { line, .. }
            | Fault::Value { line, .. }
            | Fault::AfterEnd { line }
            | Fault::MassOrder { line } => Some(line),
        }
    }

    // The field that it names.
    pub fn field(self) -> Option<u32>
        ensures { result ≡ named_field self }
    {
        match self {
            Fault::Word { field, .. }
            | Fault::NumberForm { field, .. }
            | Fault::Value { field, .. } => Some(field),
            _ => None,
        }
    }

    pub fn layer(self) -> Layer
        ensures { result ≡ fault_layer self }
    {
        match self {
            Fault::FileSize
            | Fault::LineText { .. }
            | Fault::LineStart { .. }
            | Fault::NoEnd
            | Fault::AfterEnd { .. } => Layer::Text,
            Fault::DataLines { .. } | Fault::FieldCount { .. } | Fault::Word { .. } =>
                Layer::Layout,
            Fault::NumberForm { .. } => Layer::Number,
            Fault::Value { .. } | Fault::MassOrder { .. } => Layer::Value,
        }
    }
}

// Number, line and field; 0 where it names none.
impl fmt::Display for Fault {
    ghost output = { λ f. Some (fault_figures f) };

    fn fmt<W: fmt::Write>(&self, f: &mut fmt::Formatter<W>) -> fmt::Result {
        let number = u8::from(*self);
        let line = self.line().unwrap_or(0);
        let field = self.field().unwrap_or(0);
        write!(f, "{number} {line} {field}")
    }
}

impl fmt::Display for Layer {
    ghost output = { λ l. Some (layer_word l) };

    fn fmt<W: fmt::Write>(&self, f: &mut fmt::Formatter<W>) -> fmt::Result {
        match self {
            Layer::Text => write!(f, "text"),
            Layer::Layout => write!(f, "layout"),
            Layer::Number => write!(f, "number"),
            Layer::Value => write!(f, "value"),
        }
    }
}

impl From<Refusal> for u8 {
    ghost from_gives = { λ r n. n ≡ refusal_number r };

    fn from(refusal: Refusal) -> u8 {
        refusal as u8
    }
}

impl fmt::Display for Refusal {
    ghost output = { λ r. Some (decimal (refusal_number r)) };

    fn fmt<W: fmt::Write>(&self, f: &mut fmt::Formatter<W>) -> fmt::Result {
        let number = u8::from(*self);
        write!(f, "{number}")
    }
}
