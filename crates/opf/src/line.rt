// One data line: its number in the text, and the part of it that holds its fields.
ghost use Rattle.std.specs.Prelude.{◌≤◌, length};

#[derive(Clone, Copy)]
pub(crate) struct DataLine<'a> {
    pub(crate) number: u32,
    pub(crate) text: &'a [u8],
    ghost short: { length text.now ≤ 160 },
}
