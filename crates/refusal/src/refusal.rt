// Why a day, an engine kind, a flight or a script line is refused, with the number by which it is known outside.
#[derive(Clone, Copy, PartialEq, Eq, Debug)]
pub enum Refusal {
    // A bench pair is out of bounds.
    BenchPair = 11,
    // A day or an engine kind is asked above 60,000 ft.
    TooHigh = 12,
    // A gram figure exceeds 10⁹, or an uplift or a jettison is 0.
    Grams = 13,
    // The zero-fuel mass is below the minimum mass.
    ZeroFuel = 14,
    // The phase is unknown.
    Phase = 15,
    // The flight's state does not take the call.
    State = 16,
    // The altitude exceeds the aircraft's maximum.
    Altitude = 17,
    // The true airspeed is outside 30 to 700 kt.
    Speed = 18,
    // The calibrated airspeed is outside 20 to 500 kt.
    Calibrated = 19,
    // The leg is not 1 to 60 seconds long.
    Seconds = 20,
    // The seconds flown would pass 1,000,000.
    FlownSeconds = 21,
    // The weight exceeds what the wing can lift.
    Lift = 22,
    // Nominal flow is refused.
    Flow = 23,
    // The mass would exceed the maximum mass.
    Overweight = 24,
    // The burn or the jettison exceeds the fuel.
    FuelShort = 25,
    // A script line of another form, or out of its turn.
    Script = 26,
}
