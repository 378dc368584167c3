// The worked figures: what the definitions that the calls' contracts cite give at chosen values.
#![tactic(auto)]

ghost use Rattle.samples.specs.Worked.{WorkedFigures};

pub fn worked_figures()
    ensures { WorkedFigures }
{}
