// Reads an aircraft file.
ghost use Rattle.std.specs.Prelude.{◌≡◌, IfOk};
ghost use Rattle.opf.specs.Text.{lines};
ghost use Rattle.opf.specs.Files.{data_lines, read_file};
ghost use Rattle.opf.specs.Records.{read_values};
ghost use Rattle.opf.specs.Printed.{Printed};

use crate::file::read_lines;
use crate::finish::finished;
use aircraft::record::Aircraft;
use refusal::fault::Fault;

// The most bytes that a file may have.
pub const MOST_BYTES: usize = 32768;

// The aircraft that the text of a file gives, or the file's first fault.
pub fn read(text: &[u8]) -> Result<Aircraft, Fault>
    ensures values { read_values result ≡ read_file text.now }
    ensures printed { IfOk result (λ a. Printed (data_lines (lines text.now)) a) }
{
    if text.len() > MOST_BYTES {
        return Err(Fault::FileSize);
    }
    let draft = read_lines(text)?;
    Ok(finished(&draft))
}
