// Runs the sheets named as arguments: NAME.opf with NAME.script, as the fuel sheet program would.
#![tactic(auto)]

use aircraft_file::input::aircraft_from;
use script::run::run;
use sheet::fault::FaultLine;
use sheet::sheet::Sheet;
use std::io::BufReader;
use std::{env, fs, io};

// The match is that of fuelsheet; one function for both would have to be handed a closure that opens the script.
fn answer(rt: &HostRuntime, name: &str) -> io::Result<()> {
    let file = fs::open(rt, format!(in rt.alloc(); "{name}.opf")?.as_str())?;
    match aircraft_from(rt.alloc(), file)? {
        Ok(aircraft) => {
            let script = fs::open(rt, format!(in rt.alloc(); "{name}.script")?.as_str())?;
            run(
                rt,
                &mut Sheet::new(aircraft),
                &mut BufReader::new(rt.alloc(), script)?,
            )
        }
        Err(fault) => rt.print(FaultLine { fault }),
    }
}

fn main(rt: HostRuntime) -> io::Result<()> {
    for name in env::args(&rt)?.skip(1) {
        println!(rt; "sheet {name}")?;
        answer(&rt, name.as_str())?;
    }
    Ok(())
}
