// Prints every coefficient of the aircraft files named as arguments, or each file's first fault.
#![tactic(auto)]

mod listing;

use crate::listing::Lines;
use aircraft_file::input::aircraft_from;
use std::{env, fs, io};

// Prints what the file of a name gives.
fn check(rt: &HostRuntime, name: &str) -> io::Result<()> {
    match aircraft_from(rt.alloc(), fs::open(rt, name)?)? {
        Ok(aircraft) => rt.print(Lines(&aircraft)),
        Err(fault) => rt.print(Lines(&fault)),
    }
}

// Prints what the file of a name gives, or tells why it cannot be read.
fn told(rt: &HostRuntime, name: &str) -> io::Result<io::Result<()>> {
    if let Err(e) = check(rt, name) {
        eprintln!(rt; "opfcheck: {name}: {e}")?;
        return Ok(Err(io::Error::from(io::ErrorKind::NotFound)));
    }
    Ok(Ok(()))
}

fn main(rt: HostRuntime) -> io::Result<()> {
    let names = env::args(&rt)?.skip(1);
    let count = names.len();
    if count == 0 {
        return told(&rt, "aircraft.opf")?;
    }
    let mut all = Ok(());
    for name in names {
        if count > 1 {
            println!(rt; "file {name}")?;
        }
        if let Err(e) = told(&rt, name.as_str())? {
            all = Err(e);
        }
    }
    all
}
