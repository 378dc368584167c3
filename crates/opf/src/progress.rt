// How far the reading of a file has come.
use aircraft::draft::Draft;

// The plain record so far, and the place of the next data line, counted from 1.
#[derive(Clone, Copy)]
pub(crate) struct Progress {
    pub(crate) draft: Draft,
    pub(crate) place: u32,
}
