// What an engine kind is.
ghost use Rattle.std.specs.Prelude.{◌≡◌};
ghost use Rattle.engine.specs.Meaning.{KindMeaning, KindLaws, thrust_answer, nominal_answer, idle_answer};

use refusal::refusal::Refusal;

// A new kind gives `engine`, its meaning (specs/Meaning.antt): answered and exact values and the speeds at which it refuses nominal flow.
// It proves `lawful`, and that each of the three questions answers as its meaning says; the order of refusals is part of that.
// Whatever is generic over kinds then holds of it too. The questions take plain numbers, the form that the project asks of a kind.
pub trait Kind {
    ghost engine: { Self → KindMeaning };

    // Standard-day thrust in mN at an altitude in ft and a true airspeed in 0.1 kt.
    fn thrust(&self, altitude: u64, speed: u64) -> Result<u64, Refusal>
        ensures { result ≡ thrust_answer (engine self.now) altitude speed };

    // Nominal flow in mg/min at a true airspeed in 0.1 kt and a thrust in mN.
    fn nominal(&self, speed: u64, thrust: u64) -> Result<u64, Refusal>
        ensures { result ≡ nominal_answer (engine self.now) speed thrust };

    // Idle flow in mg/min at an altitude in ft.
    fn idle(&self, altitude: u64) -> Result<u64, Refusal>
        ensures { result ≡ idle_answer (engine self.now) altitude };

    ghost lawful: { (s : Self) → KindLaws (engine s) };
}
