// Reads the form of a script line.
ghost use Rattle.std.specs.Prelude.{◌≡◌, true, false, MatchOption, OnSome};
ghost use Rattle.text.specs.Bytes.{every, printable};
ghost use Rattle.sheet.specs.Words.{first_word, NumberBefore};
ghost use Rattle.sheet.specs.Forms.{bench_form, start_form, leg_form, form_by, form_of};

use crate::form::Form;
use crate::numbers::{deviation, number};
use flight::call::Call;
use flight::start::Start;
use leg::figures::Figures;
use std::str;
use text::bytes::is_printable;

// The number before the first space, and what stands after the space.
fn number_before(text: &str) -> Option<(u64, &str)>
    ensures { NumberBefore text.now result }
{
    let (word, rest) = text.split_once(' ')?;
    Some((number(word)?, rest))
}

fn bench_form(text: &str) -> Option<Form>
    ensures { result ≡ bench_form text.now }
{
    let (density, rest) = number_before(text)?;
    let deviation = deviation(rest)?;
    Some(Form::Bench { density, deviation })
}

fn start_form(text: &str) -> Option<Form>
    ensures { result ≡ start_form text.now }
{
    let (zero_fuel, rest) = number_before(text)?;
    let (fuel, reserve) = match rest.split_once(' ') {
        Some((fuel, reserve)) => (number(fuel)?, Some(number(reserve)?)),
        None => (number(rest)?, None),
    };
    Some(Form::Start(Start {
        zero_fuel,
        fuel,
        reserve,
    }))
}

fn leg_form(text: &str) -> Option<Form>
    ensures { result ≡ leg_form text.now }
{
    let (phase, rest) = number_before(text)?;
    let (altitude, rest) = number_before(rest)?;
    let (speed, rest) = number_before(rest)?;
    let (calibrated, rest) = number_before(rest)?;
    let seconds = number(rest)?;
    let figures = Figures {
        altitude,
        speed,
        calibrated,
        seconds,
    };
    Some(Form::Call(Call::Leg { phase, figures }))
}

// A line with no byte outside 32 to 126 is text.
pub(crate) fn text_of(line: &[u8]) -> Option<&str>
    ensures { MatchOption result (every printable line.now ≡ false) (λ t. (t.now ≡ line.now) × (every printable line.now ≡ true)) }
{
    if !is_printable(line) {
        return None;
    }
    str::from_utf8(line).ok()
}

// The form of a text by its first word.
pub(crate) fn form_of_text(text: &str) -> Option<Form>
    ensures { result ≡ form_by (first_word text.now) text.now }
{
    match text.split_once(' ') {
        Some(("leg", rest)) => leg_form(rest),
        Some(("uplift", rest)) => Some(Form::Call(Call::Uplift(number(rest)?))),
        Some(("jettison", rest)) => Some(Form::Call(Call::Jettison(number(rest)?))),
        Some(("start", rest)) => start_form(rest),
        Some(("bench", rest)) => bench_form(rest),
        Some(_) => None,
        None => match text {
            "touchdown" => Some(Form::Call(Call::Touchdown)),
            "standard" => Some(Form::Standard),
            _ => None,
        },
    }
}

// The form of a line, given without its end.
pub fn form(line: &[u8]) -> Option<Form>
    ensures value { result ≡ form_of line.now }
    ensures printable { OnSome result (every printable line.now ≡ true) }
{
    form_of_text(text_of(line)?)
}
