// T-06's statement about whole lists, that a wall does what a plain map from fences to requests does, with T-08's number
// in it, is stated in specs/Matching.antt; how such lists are read in demand 3 in specs/Mixed.antt; and what the room that
// is set aside is good for in specs/Room.antt. Here each is the contract of a function.
#![tactic(auto)]

ghost use Rattle.matching.specs.Matching.{WallIsMap};
ghost use Rattle.matching.specs.Mixed.{MixedLists};
ghost use Rattle.matching.specs.Room.{RoomForReplies};

// Does nothing: it is here for its contract, so that nothing passes the gate without the statement.
pub fn wall_is_map()
    ensures { WallIsMap }
{}

// The same for lists of a wall and the channel that it sends through.
pub fn mixed_lists()
    ensures { MixedLists }
{}

// The same for the room of a reply.
pub fn room_for_replies()
    ensures { RoomForReplies }
{}
