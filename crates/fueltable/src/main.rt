// Prints the fuel flows of an aircraft beside those of a performance table, level by level.
#![tactic(auto)]

mod column;
mod entry;
mod figures;
mod row;
mod tally;

use crate::column::Column;
use crate::entry::Entry;
use crate::row::Row;
use crate::tally::Tally;
use aircraft::record::Aircraft;
use aircraft_file::input::aircraft_from;
use std::io::{BufRead, BufReader};
use std::{fs, io};

// The masses, in kg, and the headings.
fn print_heading(rt: &HostRuntime, aircraft: &Aircraft) -> io::Result<()> {
    let low = Column::Low.mass(aircraft) / 1000;
    let nominal = Column::Nominal.mass(aircraft) / 1000;
    let high = Column::High.mass(aircraft) / 1000;
    println!(rt; "masses in kg: low {low}, nominal {nominal}, high {high}")?;
    println!(rt; "speeds in kt, flows in kg/min")?;
    println!(rt; " level  phase           speed      computed  printed   apart")
}

// A line for each column in which the row has a speed.
fn print_row(
    rt: &HostRuntime,
    aircraft: &Aircraft,
    line: &str,
    tally: &mut Tally,
) -> io::Result<()> {
    let Ok(row) = line.parse::<Row>() else {
        return println!(rt; "no row: {line}");
    };
    for cell in row.cells.into_iter().flatten() {
        let entry = Entry::new(aircraft, &row, cell);
        println!(rt; "{entry}")?;
        if let Some(difference) = entry.difference() {
            tally.add(row.level, cell.column, difference);
        }
    }
    Ok(())
}

// The table for the rows of standard input, but its comments.
fn print_table(rt: &HostRuntime, aircraft: &Aircraft) -> io::Result<()> {
    print_heading(rt, aircraft)?;
    let mut tally = Tally::default();
    for line in BufReader::new(rt.alloc(), rt.stdin())?.lines(rt.alloc()) {
        let line = line?;
        if !line.starts_with('#') {
            print_row(rt, aircraft, line.as_str(), &mut tally)?;
        }
    }
    rt.print(tally)
}

// The table of the aircraft file in the current folder, or the file's first fault.
fn run(rt: &HostRuntime) -> io::Result<()> {
    match aircraft_from(rt.alloc(), fs::open(rt, "aircraft.opf")?)? {
        Ok(aircraft) => print_table(rt, &aircraft),
        Err(fault) => println!(rt; "no {fault}"),
    }
}

fn main(rt: HostRuntime) -> io::Result<()> {
    run(&rt).or_else(|e| {
        eprintln!(rt; "fueltable: {e}")?;
        Err(e)
    })
}
