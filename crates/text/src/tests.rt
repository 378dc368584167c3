// Values worked out by hand.
use crate::bytes::{cut, is_printable, without_cr};
use crate::digits::digits;

#[test]
fn from_space_to_tilde(rt: HostRuntime) {
    assert!(rt; is_printable(b" GW 0.7~"));
    assert!(rt; is_printable(b""));
    assert!(rt; !is_printable(b"GW\x1f"));
    assert!(rt; !is_printable(b"\x7fGW"));
    assert!(rt; !is_printable(b"G\xc4W"));
}

#[test]
fn cut_at_the_first(rt: HostRuntime) {
    assert!(rt; matches!(cut(b"A=1=2", b'='), Some((b"A", b"1=2"))));
    assert!(rt; matches!(cut(b"=", b'='), Some((b"", b""))));
    assert!(rt; cut(b"A 1", b'=').is_none());
    assert!(rt; cut(b"", b'=').is_none());
}

#[test]
fn one_cr_goes(rt: HostRuntime) {
    assert_eq!(rt; without_cr(b"AB\r"), b"AB".as_slice());
    assert_eq!(rt; without_cr(b"A\r\r"), b"A\r".as_slice());
    assert_eq!(rt; without_cr(b"\rA"), b"\rA".as_slice());
    assert_eq!(rt; without_cr(b""), b"".as_slice());
}

#[test]
fn nineteen_digits(rt: HostRuntime) {
    assert_eq!(rt; digits(b"0123456789"), Some(123456789));
    assert_eq!(rt; digits(b"9999999999999999999"), Some(9999999999999999999));
    assert_eq!(rt; digits(b"00000000000000000000"), None);
    assert_eq!(rt; digits(b"12a"), None);
    assert_eq!(rt; digits(b"1/"), None);
    assert_eq!(rt; digits(b":1"), None);
    assert_eq!(rt; digits(b""), Some(0));
}
