// What is wrong with an aircraft file. Lines and fields count from 1.
#[derive(Clone, Copy, PartialEq, Eq, Debug)]
pub enum Fault {
    // The file is longer than 32,768 bytes.
    FileSize,
    // The line is longer than 160 bytes or has a byte outside 32 to 126.
    LineText { line: u32 },
    // The line begins with other letters than CC, CD and FI.
    LineStart { line: u32 },
    // A 23rd data line, or the end line before the 22nd.
    DataLines { line: u32 },
    // Too few fields on a data line.
    FieldCount { line: u32 },
    // An unknown word, or a configuration that came before.
    Word { line: u32, field: u32 },
    // A number of another form.
    NumberForm { line: u32, field: u32 },
    // A value out of its range, or no whole count of its unit.
    Value { line: u32, field: u32 },
    // There is no end line.
    NoEnd,
    // A byte other than CR and LF follows the end line.
    AfterEnd { line: u32 },
    // Minimum ≤ reference ≤ maximum mass is broken.
    MassOrder { line: u32 },
}

// The part of the reading that found a fault.
#[derive(Clone, Copy, PartialEq, Eq, Debug)]
pub enum Layer {
    Text,
    Layout,
    Number,
    Value,
}
