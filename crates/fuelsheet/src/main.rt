// Reads aircraft.opf and then a script from standard input, and answers each line of it.
#![tactic(auto)]

use aircraft_file::input::aircraft_from;
use script::run::run;
use sheet::fault::FaultLine;
use sheet::sheet::Sheet;
use std::io::BufReader;
use std::{fs, io};

const AIRCRAFT: &str = "aircraft.opf";

fn main(rt: HostRuntime) -> io::Result<()> {
    let aircraft = fs::open(&rt, AIRCRAFT)
        .and_then(|file| aircraft_from(rt.alloc(), file))
        .or_else(|e| {
            eprintln!(rt; "fuelsheet: {AIRCRAFT}: {e}")?;
            Err(e)
        })?;
    match aircraft {
        Ok(aircraft) => run(
            &rt,
            &mut Sheet::new(aircraft),
            &mut BufReader::new(rt.alloc(), rt.stdin())?,
        ),
        Err(fault) => rt.print(FaultLine { fault }),
    }
}
