// A reader over bytes in memory.
use crate::input::aircraft_from;
use refusal::fault::Fault;
use std::io;

// An aircraft in no more fields than are read, a hyphen in place of one that is not.
const SAMPLE: &[u8] = b"CD - - - Jet
CD .60000E+02 .40000E+02 .80000E+02
CD - - .40000E+05
CD - .10000E+03
CD - CR .10000E+03 .10000E-01 .00000E+00 -
CD - IC .10000E+03 .00000E+00 .00000E+00 -
CD - TO .10000E+03 .00000E+00 .00000E+00 -
CD - AP .10000E+03 .00000E+00 .00000E+00 -
CD - LD .10000E+03 .00000E+00 .00000E+00 -
CD
CD
CD
CD - - .00000E+00
CD
CD
CD .10000E+06 .50000E+05 .00000E+00 .00000E+00 .00000E+00
CD .00000E+00 .00000E+00 .00000E+00 .00000E+00 .00000E+00
CD
CD .10000E+01 .10000E+04
CD .10000E+02 .10000E+06
CD .10000E+01
CD
FI
";

#[test]
fn reads_an_aircraft(rt: HostRuntime) -> io::Result<()> {
    let reference = aircraft_from(rt.alloc(), SAMPLE)?.map(|a| a.masses.reference);
    assert_eq!(rt; reference, Ok(60_000_000));
    Ok(())
}

#[test]
fn reads_a_fault(rt: HostRuntime) -> io::Result<()> {
    let text: &[u8] = b"CC no more than a comment\n";
    let fault = aircraft_from(rt.alloc(), text)?.err();
    assert_eq!(rt; fault, Some(Fault::NoEnd));
    Ok(())
}
