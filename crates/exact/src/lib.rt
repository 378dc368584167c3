// Exact rational numbers for specifications: no program computes with them. The functions here carry what they are.
#![tactic(auto)]

ghost use Rattle.exact.specs.Meaning.{AsFractions, UndoesProduct, ByOrder};

// Order, equality, sum, product and opposite are those of fractions with whole numerators and positive denominators.
pub fn fractions_stand()
    ensures { AsFractions }
{}

// The quotient times the divisor is the dividend; by zero the quotient is zero.
pub fn quotients_stand()
    ensures { UndoesProduct }
{}

// The least, the greatest, the size and the distance are what the order says.
pub fn bounds_stand()
    ensures { ByOrder }
{}
