// A good file of 24 lines, and what the reader says of it with some of them replaced.
use aircraft::record::Aircraft;
use opf::read::read;
use std::alloc::{AllocError, Global};
use std::test::Fail;

// The sample: a comment, data lines 1 to 22, the end.
const LINES: [&[u8]; 24] = [
    b"CC sample jet",
    b"CD SMPL__ 2 engines Jet M /",
    b"CD .60000E+02 .40000E+02 .80000E+02 .20000E+02 .14100E+00 /",
    b"CD .33500E+03 .82000E+00 .40000E+05 .31600E+05 -.67000E+02 /",
    b"CD 5 .10000E+03 .15300E+01 .10290E+01 .00000E+00 /",
    b"CD 1 CR Clean .14000E+03 .20000E-01 .40000E-01 .00000E+00 /",
    b"CD 2 IC S15F00 .11700E+03 .33057E-01 .45362E-01 .00000E+00 /",
    b"CD 3 TO S15F00 .11700E+03 .33057E-01 .45362E-01 .00000E+00 /",
    b"CD 4 AP S15F15 .11500E+03 .38031E-01 .44932E-01 .00000E+00 /",
    b"CD 5 LD S30F40 .97000E+02 .78935E-01 .44822E-01 .00000E+00 /",
    b"CD",
    b"CD",
    b"CD",
    b"CD 2 DOWN .22500E-01 .00000E+00 .00000E+00 /",
    b"CD",
    b"CD",
    b"CD .15000E+06 .50000E+05 .10000E-09 .10000E+02 .50000E-02 /",
    b"CD .73000E-02 .20600E-01 .80000E+04 .12000E+00 .36000E+00 /",
    b"CD",
    b"CD .70000E+00 .10000E+04 /",
    b"CD .12000E+02 .10000E+06 /",
    b"CD .10000E+01 .00000E+00 .00000E+00 .00000E+00 .00000E+00 /",
    b"CD",
    b"FI /",
];

// A line put in place of line `at`.
#[derive(Clone, Copy)]
pub(crate) struct Replacement<'a> {
    pub(crate) at: usize,
    pub(crate) line: &'a [u8],
}

pub(crate) fn put(at: usize, line: &[u8]) -> Replacement<'_> {
    Replacement { at, line }
}

// The sample with two lines replaced; `end` follows each line.
pub(crate) fn file(
    heap: Global,
    a: Replacement,
    b: Replacement,
    end: &[u8],
) -> Result<Vec<u8>, AllocError> {
    let mut text = Vec::new(heap);
    for (i, own) in (1..).zip(LINES) {
        let line = match i {
            n if n == a.at => a.line,
            n if n == b.at => b.line,
            _ => own,
        };
        text.extend_from_slice(line)?;
        text.extend_from_slice(end)?;
    }
    Ok(text)
}

// Number, line and field of a file's fault, as the fault is printed: 0 stands for none.
pub(crate) fn fault(text: &[u8]) -> Option<(u8, u32, u32)> {
    let f = read(text).err()?;
    Some((u8::from(f), f.line().unwrap_or(0), f.field().unwrap_or(0)))
}

// The fault of the sample with two lines replaced.
pub(crate) fn fault_of_two(
    heap: Global,
    a: Replacement,
    b: Replacement,
) -> Result<Option<(u8, u32, u32)>, AllocError> {
    let text = file(heap, a, b, b"\n")?;
    Ok(fault(text.as_slice()))
}

// The fault of the sample with line `at` replaced.
pub(crate) fn fault_with(
    heap: Global,
    at: usize,
    line: &[u8],
) -> Result<Option<(u8, u32, u32)>, AllocError> {
    fault_of_two(heap, put(at, line), put(at, line))
}

// The aircraft of the sample with line `at` replaced.
pub(crate) fn aircraft_with(heap: Global, at: usize, line: &[u8]) -> Result<Aircraft, Fail> {
    let text = file(heap, put(at, line), put(at, line), b"\n")?;
    Ok(read(text.as_slice())?)
}
