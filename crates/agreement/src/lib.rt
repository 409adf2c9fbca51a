// Demand 2 as one statement, over the definitions that the contracts of `message`, `channel` and `firmware` cite.
#![tactic(auto)]

ghost use Rattle.agreement.specs.Demand2.{Demand2};

// Does nothing: it is here for its contract, so that nothing passes the gate without the statement.
pub fn demand_2()
    ensures { Demand2 }
{}
