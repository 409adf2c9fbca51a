// Demand 1 as one statement, over the definitions that the contracts of `message`, `channel`, `firmware` and `wall` cite:
// when each public call refuses, by which number, and what it leaves.
#![tactic(auto)]

ghost use Rattle.refusals.specs.Refusals.{Demand1};
ghost use Rattle.refusals.specs.RecordRefusals.{RecordDemand1};

// Does nothing: it is here for its contract, so that nothing passes the gate without the statement.
pub fn demand_1()
    ensures { Demand1 }
{}

// The same for the calls of a record.
pub fn record_demand_1()
    ensures { RecordDemand1 }
{}
