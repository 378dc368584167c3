// The bytes of a line.
ghost use Rattle.std.specs.Prelude.{◌≡◌};
ghost use Rattle.text.specs.Bytes.{every, printable, cut_at, parts_seen, without_cr};

// Whether each byte is of 32 to 126.
pub fn is_printable(s: &[u8]) -> bool
    ensures { result ≡ every printable s.now }
{
    s.iter().all(|b| (b' '..=b'~').contains(b))
}

// What stands before the first `b`, and what stands after it; none where there is no such byte.
pub fn cut(s: &[u8], b: u8) -> Option<(&[u8], &[u8])>
    ensures { parts_seen result ≡ cut_at b s.now }
{
    // Both parts by the place of the byte: std cuts text in two at a byte, and not bytes.
    let n = s.iter().position(|x| *x == b)?;
    Some((&s[..n], &s[n + 1..]))
}

// A line before its LF loses a CR at its end.
pub fn without_cr(line: &[u8]) -> &[u8]
    ensures { result.now ≡ without_cr line.now }
{
    line.strip_suffix(b"\r").unwrap_or(line)
}
