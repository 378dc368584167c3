// The lines of a text.
ghost use Rattle.std.specs.Iterator.{YieldsFirstRef, item_count};
ghost use Rattle.opf.specs.Text.{lines};

use std::mem;
use text::bytes::{cut, without_cr};

// What is left of a text, as an iterator of its lines without their ends.
#[derive(Drop)]
pub(crate) struct Lines<'a>(pub(crate) &'a [u8]);

impl<'a> Iterator for Lines<'a> {
    type Item = &'a [u8];

    ghost next_gives = { YieldsFirstRef (λ s. lines s.0.now) };

    ghost remaining = { item_count (λ s. lines s.0.now) };

    fn next(&mut self) -> Option<&'a [u8]> {
        if let Some((line, rest)) = cut(self.0, b'\n') {
            self.0 = rest;
            return Some(without_cr(line));
        }
        let last = mem::take(&mut self.0);
        (!last.is_empty()).then_some(last)
    }
}
