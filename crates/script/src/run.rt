// Reads a script and writes the answers: at once where somebody types, in blocks where a file is piped.
ghost use Rattle.sheet.specs.Sheets.{Keeps};

use sheet::sheet::Sheet;
use sheet::show::AnswerLine;
use std::fmt::Write;
use std::io;
use std::io::{BufRead, BufReader, Read};
use text::bytes::without_cr;

// The longest form has 58 bytes, and a CR and an LF may follow it. No more is kept, so that memory stays the same for any script.
const MOST_KEPT: usize = 60;

// Answers are written out at this many bytes at the latest.
const MOST_HELD: usize = 60000;

// The next line without its end, cut off after the bytes that are kept; none where the input ends.
fn next_line<'a, R: Read>(
    input: &mut BufReader<R>,
    line: &'a mut Vec<u8>,
) -> io::Result<Option<&'a [u8]>> {
    line.clear();
    input.take(MOST_KEPT as u64).read_until(b'\n', line)?;
    if line.is_empty() {
        return Ok(None);
    }
    if let Some(front) = line.as_slice().strip_suffix(b"\n") {
        return Ok(Some(without_cr(front)));
    }
    // A line that is shorter ends with the input.
    if line.len() == MOST_KEPT {
        input.skip_until(b'\n')?;
    }
    Ok(Some(line.as_slice()))
}

#[tactic(auto, using(sheet::proofs::Kept::takes_keeps))]
fn answer(sheet: &mut Sheet, line: &[u8], out: &mut String) -> io::Result<()>
    ensures { Keeps sheet.old sheet.new }
{
    let answer = AnswerLine(sheet.line(line));
    Ok(write!(out, "{answer}")?)
}

// Writes what is due, and holds it no longer.
fn write_due(rt: &HostRuntime, out: &mut String) -> io::Result<()> {
    let written = rt.stdout().write_all(out.as_bytes());
    out.clear();
    written
}

#[tactic(auto, using(sheet::proofs::Kept::keeps_on, sheet::proofs::Kept::keeps_itself))]
fn answer_lines<R: Read>(
    rt: &HostRuntime,
    sheet: &mut Sheet,
    input: &mut BufReader<R>,
    out: &mut String,
) -> io::Result<()>
    ensures { Keeps sheet.old sheet.new }
{
    let mut line = Vec::new(rt.alloc());
    // Counted, since a reader may give lines without end, and every loop is to end.
    for _ in 0..u64::MAX {
        let Some(text) = next_line(input, &mut line)? else {
            return Ok(());
        };
        answer(sheet, text, out)?;
        if out.len() > MOST_HELD || !input.buffer().contains(&b'\n') {
            write_due(rt, out)?;
        }
    }
    Ok(())
}

// Answers every line; answers that are due are written also where the input fails. The sheet stays that of its aircraft.
pub fn run<R: Read>(rt: &HostRuntime, sheet: &mut Sheet, input: &mut BufReader<R>) -> io::Result<()>
    ensures { Keeps sheet.old sheet.new }
{
    let mut out = String::new(rt.alloc());
    let answered = answer_lines(rt, sheet, input, &mut out);
    let written = write_due(rt, &mut out);
    answered?;
    written
}
