// What a kind is asked about, beside an altitude.
use refusal::within::Within;

// A true airspeed in 0.1 kt.
pub(crate) type Speed = Within<300, 7000>;

// A thrust in mN.
pub(crate) type Thrust = Within<0, 10000000000>;
