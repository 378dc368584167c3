// The bench day: one pair at every altitude.
ghost use Rattle.std.specs.Prelude.{◌≤◌, pos, negsuc, ◌≤ℤ◌};

// Density in 10⁻⁵ kg/m³, deviation from standard temperature in 0.01 K.
#[derive(Clone, Copy, Debug)]
pub struct Bench {
    pub(crate) density: u64,
    pub(crate) deviation: i64,
    ghost thinnest: { 5000 ≤ density },
    ghost densest: { density ≤ 150000 },
    ghost coldest: { negsuc 4999 ≤ℤ deviation },
    ghost warmest: { deviation ≤ℤ pos 5000 },
}
