// The numbers of a script line.
ghost use Rattle.std.specs.Prelude.{◌≡◌, ◌^◌, ◌<◌, IfSome};
ghost use Rattle.sheet.specs.Words.{number_of, deviation_of};

use text::digits::digits;

// One to ten digits.
pub(crate) fn number(text: &str) -> Option<u64>
    ensures value { result ≡ number_of text.now }
    ensures bound { IfSome result (λ n. n < 10 ^ 10) }
{
    if text.is_empty() || text.len() > 10 {
        return None;
    }
    digits(text.as_bytes())
}

// A number that may have a minus before it.
pub(crate) fn deviation(text: &str) -> Option<i64>
    ensures { result ≡ deviation_of text.now }
{
    match text.strip_prefix('-') {
        Some(rest) => Some(-(number(rest)? as i64)),
        None => Some(number(text)? as i64),
    }
}
