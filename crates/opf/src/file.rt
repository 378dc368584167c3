// Goes through the lines of a file.
ghost use Rattle.std.specs.Prelude.{◌≡◌, ◌≤◌, List, [], ◌++◌, length};
ghost use Rattle.opf.specs.Faults.{judge};
ghost use Rattle.opf.specs.Text.{lines};
ghost use Rattle.opf.specs.DataLines.{Fields};
ghost use Rattle.opf.specs.Files.{line_fault, is_end, own_fields, blank, lines_fault, data_lines, draft_of};
ghost use Rattle.opf.specs.Progress.{HasRead, ReadsLine};

use crate::lines::Lines;
use crate::progress::Progress;
use crate::token::{Token, check_text, line_token};
use aircraft::draft::Draft;
use refusal::fault::Fault;

impl Progress {
    // Judges line `number` and reads it; answers whether it is the end, a plain yes or no.
    fn take(&mut self, number: u32, line: &[u8]) -> Result<bool, Fault>
        ensures { (d : List Fields) → HasRead self.old d → ReadsLine result (line_fault number d line.now) (is_end line.now) self.new (d ++ own_fields line.now) }
    {
        check_text(line, number)?;
        match line_token(line).ok_or(Fault::LineStart { line: number })? {
            Token::Comment(_) => Ok(false),
            Token::Data(rest) => self.take_data(number, rest).map(|()| false),
            Token::End(_) if self.place <= 22 => Err(Fault::DataLines { line: number }),
            Token::End(_) => Ok(true),
        }
    }
}

// Whether nothing but line ends is left.
fn only_line_ends(rest: &[u8]) -> bool
    ensures { result ≡ blank (lines rest.now) }
{
    rest.iter().all(|b| matches!(*b, b'\n' | b'\r'))
}

// Reads the lines one by one, up to the end line; nothing but line ends follows it.
pub(crate) fn read_lines(text: &[u8]) -> Result<Draft, Fault>
    requires { length text.now ≤ 32768 }
    ensures { result ≡ judge (lines_fault 1 [] (lines text.now)) (draft_of (data_lines (lines text.now))) }
{
    let mut progress = Progress {
        draft: Draft::empty(),
        place: 1,
    };
    let mut lines = Lines(text);
    let mut number = 1;
    // Not a `for`, and numbered without a `zip`: it would take the lines, and what they have left is judged by its bytes.
    while let Some(line) = lines.next() {
        if progress.take(number, line)? {
            if only_line_ends(lines.0) {
                return Ok(progress.draft);
            }
            return Err(Fault::AfterEnd { line: number });
        }
        number += 1;
    }
    Err(Fault::NoEnd)
}
