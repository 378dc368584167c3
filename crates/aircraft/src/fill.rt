// One row of the plain record is filled; all else stays.
ghost use Rattle.std.specs.Prelude.{◌≡◌, ℕ, ◌≢◌, None, slice_index_or};
ghost use Rattle.aircraft.specs.Words.{configuration_row};
ghost use Rattle.aircraft.specs.Drafts.{with_row, empty_draft};

use crate::draft::{Draft, DraftRow};
use crate::words::Configuration;

impl Draft {
    // Nothing read yet: the derived default, under a name and with a clause that say what it is.
    pub fn empty() -> Draft
        ensures { result ≡ empty_draft }
    {
        Draft::default()
    }

    // Fills the row of `c` and no other.
    pub fn fill(&mut self, c: Configuration, row: DraftRow)
        ensures after { self.new ≡ with_row self.old c row }
        ensures others { (k : ℕ) → (k ≢ configuration_row c) → slice_index_or self.new.rows k None ≡ slice_index_or self.old.rows k None }
    {
        let i = c.row();
        self.rows[i] = Some(row);
    }
}
