// How near the whole-number burn of a leg is to the exact burn, and how the exact burn goes with the mass.
ghost use Rattle.leg.specs.Nearness.{BurnNear, BurnRises, BurnGains};

// Of every accepted leg, with every kind and day that keep their laws, over any drag pair with CD0 at most 0.94 and CD2 at most 0.47.
pub fn burns_stay_near()
    ensures near { BurnNear }
    ensures rises { BurnRises }
    ensures gains { BurnGains }
{}
