// The mass of an aircraft that may fly a leg.
ghost use Rattle.std.specs.Prelude.{◌≤◌};

// In milligrams, 0.2 to 900 t.
#[derive(Clone, Copy, Debug)]
pub struct Mass {
    pub milligrams: u64,
    ghost light: { 200000000 ≤ milligrams },
    ghost heavy: { milligrams ≤ 900000000000 },
}
