// The number that digits write.
ghost use Rattle.std.specs.Prelude.{◌≡◌, ◌^◌, ◌<◌, length, IfSome};
ghost use Rattle.text.specs.Digits.{number_written};

// None where a byte is no digit, or there are more than 19; 0 of no digits.
pub fn digits(s: &[u8]) -> Option<u64>
    ensures value { result ≡ number_written s.now }
    ensures bound { IfSome result (λ n. n < 10 ^ length s.now) }
{
    if s.len() > 19 {
        return None;
    }
    // A loop: a `try_fold` was tried, and its closure would have to know how large the number so far is.
    let mut n = 0;
    for b in s {
        if !b.is_ascii_digit() {
            return None;
        }
        n = n * 10 + u64::from(*b - b'0');
    }
    Some(n)
}
