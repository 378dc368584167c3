// Examples over the definitions: exact values are not the answered ones in disguise.
ghost use Rattle.engine.specs.Examples.{JetExample, TurbopropExample};

pub fn exact_values()
    ensures jet { JetExample }
    ensures turboprop { TurbopropExample }
{}
