// Stations: small books of rules, worked through by the definitions alone.
#![tactic(auto)]

ghost use Rattle.answer_sets.specs.Rules.{rules_of};
ghost use Rattle.breadth.specs.Breadth.{Breadth};
ghost use Rattle.stations.specs.Listing.{Lists};
ghost use Rattle.stations.specs.Stations.{Station, stations, two_choices};
ghost use Rattle.std.specs.Prelude.{◌≡◌, length, All};

// How many books there are. The contract says of each which fits are its answer sets, in order, and of the last how broad it
// is; this follows from the definition of answer sets, whatever any function does.
pub fn stations_stand() -> u8
    ensures number { result ≡ length stations }
    ensures listed { All (λ (s : Station). Lists (rules_of s.rows) s.fits) stations }
    ensures broad { Breadth (rules_of two_choices.rows) 4 }
{
    7
}
