// What a line is, and its fault as text.
ghost use Rattle.std.specs.Prelude.{◌≡◌};
ghost use Rattle.opf.specs.Text.{text_fault, line_of};
ghost use Rattle.opf.specs.Faults.{Judges};
ghost use Rattle.opf.specs.Lines.{done};
ghost use Rattle.opf.specs.Tokens.{line_seen};

use refusal::fault::Fault;
use text::bytes::is_printable;

// A line by its first two letters, with what follows them.
#[derive(Clone, Copy)]
pub(crate) enum Token<'a> {
    Comment(&'a [u8]),
    Data(&'a [u8]),
    End(&'a [u8]),
}

// Judges the line's length and bytes.
pub(crate) fn check_text(line: &[u8], number: u32) -> Result<(), Fault>
    ensures { Judges result (text_fault number line.now) done }
{
    if line.len() > 160 || !is_printable(line) {
        return Err(Fault::LineText { line: number });
    }
    Ok(())
}

// What a line is by its two letters.
#[tactic(auto, using(std::proofs::lemmas::List::take_rest))]
pub(crate) fn line_token(line: &[u8]) -> Option<Token<'_>>
    ensures { line_seen result ≡ line_of line.now }
{
    match line {
        [b'C', b'C', rest @ ..] => Some(Token::Comment(rest)),
        [b'C', b'D', rest @ ..] => Some(Token::Data(rest)),
        [b'F', b'I', rest @ ..] => Some(Token::End(rest)),
        _ => None,
    }
}
