// The fields of a data line.
ghost use Rattle.std.specs.Prelude.{◌≡◌, ◌≤◌, [], length, slice_index_or};
ghost use Rattle.std.specs.Iterator.{YieldsFirstRef, item_count};
ghost use Rattle.opf.specs.Fields.{before_slash, runs};

use text::bytes::cut;

// The part of a data line that holds its fields.
pub(crate) fn up_to_slash(rest: &[u8]) -> &[u8]
    ensures value { result.now ≡ before_slash rest.now }
    ensures shorter { length result.now ≤ length rest.now }
{
    cut(rest, b'/').map_or(rest, |(fields, _)| fields)
}

// What is left of a data line, as an iterator of its fields.
#[derive(Drop)]
pub(crate) struct Fields<'a>(pub(crate) &'a [u8]);

impl<'a> Iterator for Fields<'a> {
    type Item = &'a [u8];

    ghost next_gives = { YieldsFirstRef (λ s. runs s.0.now) };

    ghost remaining = { item_count (λ s. runs s.0.now) };

    fn next(&mut self) -> Option<&'a [u8]> {
        let blanks = self.0.iter().position(|b| *b != b' ')?;
        let text = &self.0[blanks..];
        let n = text.iter().position(|b| *b == b' ').unwrap_or(text.len());
        let (field, rest) = text.split_at(n);
        self.0 = rest;
        Some(field)
    }
}

pub(crate) fn field_count(s: &[u8]) -> usize
    ensures count { result ≡ length (runs s.now) }
    ensures inside { result ≤ length s.now }
{
    Fields(s).count()
}

// The field at `k`, counted from 0; empty where there is none.
pub(crate) fn field_at(s: &[u8], k: usize) -> &[u8]
    ensures { result.now ≡ slice_index_or (runs s.now) k [] }
{
    Fields(s).nth(k).unwrap_or(b"")
}
