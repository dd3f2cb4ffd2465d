//! The worked figures, proved of the very definitions that the contracts cite.
#![tactic(auto)]

ghost use Rattle.figures.specs.Worked.{Positions, Thirds, Halves, Tolerances, Banding, Buying};

/// Each clause is a worked figure or a few that belong together.
pub fn figures()
    ensures positions { Positions }
    ensures thirds { Thirds }
    ensures halves { Halves }
    ensures tolerances { Tolerances }
    ensures banding { Banding }
    ensures buying { Buying }
{}
