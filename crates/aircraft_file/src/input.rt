// The aircraft of a reader's bytes.
ghost use Rattle.std.specs.Prelude.{IfOk, IfSome};
ghost use Rattle.aircraft_file.specs.Texts.{Gives};

use aircraft::record::Aircraft;
use opf::read::{MOST_BYTES, read};
use refusal::fault::Fault;
use std::alloc::Global;
use std::io;
use std::io::Read;

// The aircraft that all bytes of a reader give, or their first fault. One byte more than a file may have tells that it has too many.
pub fn aircraft_from<R: Read + Drop>(alloc: Global, input: R) -> io::Result<Result<Aircraft, Fault>>
    ensures { IfOk result (λ r. IfSome (R.remaining input) (λ text. Gives text r)) }
{
    let mut bytes = Vec::new(alloc);
    input.take(MOST_BYTES as u64 + 1).read_to_end(&mut bytes)?;
    Ok(read(bytes.as_slice()))
}
