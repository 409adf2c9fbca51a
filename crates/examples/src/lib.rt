// The worked examples of document 01, 'Both sides of each line', and of requests of document 02 are a table in
// specs/Table.antt. That the definitions which the contracts cite give each of its rows is the contract of a function.
#![tactic(auto)]

ghost use Rattle.examples.specs.Table.{Examples};
ghost use Rattle.examples.specs.Records.{RecordExamples};

// Does nothing: it is here for its contract, so that nothing passes the gate without the examples.
pub fn worked_examples()
    ensures { Examples }
{}

// The same for a record.
pub fn worked_records()
    ensures { RecordExamples }
{}
