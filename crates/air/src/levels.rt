// What lies between two neighbouring levels.
ghost use Rattle.std.specs.Prelude.{◌≡◌, ◌-◌, ◌<◌, ◌≤◌, pos, ◌-ℤ◌, ◌*ℤ◌, unsigned_abs};
ghost use Rattle.std.specs.Int.{int_div_euclid};
ghost use Rattle.air.specs.Between.{between};

// An altitude h from a level h0 up to the next level h1, with the values x0 and x1 at the two.
#[derive(Clone, Copy)]
pub(crate) struct Between {
    pub(crate) x0: i64,
    pub(crate) x1: i64,
    pub(crate) h0: u64,
    pub(crate) h1: u64,
    pub(crate) h: u64,
    ghost lower: { unsigned_abs x0 ≤ 150000 },
    ghost upper: { unsigned_abs x1 ≤ 150000 },
    ghost from: { h0 ≤ h },
    ghost to: { h < h1 },
    ghost top: { h1 ≤ 60000 },
}

impl Between {
    // What h adds to the value at h0, rounded down.
    fn rise(self) -> i64
        ensures { result ≡ int_div_euclid ((self.x1 -ℤ self.x0) *ℤ pos (self.h - self.h0)) (pos (self.h1 - self.h0)) }
    {
        let rise = (self.x1 - self.x0) * (self.h - self.h0) as i64;
        rise.div_euclid((self.h1 - self.h0) as i64)
    }

    // The value at h.
    pub(crate) fn value(self) -> i64
        ensures { result ≡ between self.x0 self.x1 self.h0 self.h1 self.h }
    {
        self.x0 + self.rise()
    }
}
