// Document 01, 'Standing': every call of the player keeps it. Document 02, c: a call gives few events, and arrays of as many places are
// enough. Document 02, i: which extends change nothing. The crate has statements and no code of its own.
#![tactic(auto)]

ghost use Rattle.keeps.specs.Keeps.{KeepsStanding};
ghost use Rattle.keeps.specs.Few.{FewEvents};
ghost use Rattle.keeps.specs.Places.{SmallArrays};
ghost use Rattle.keeps.specs.Extends.{IdleExtends};

// A player that stands stands after every call, and a fresh one of a workout that passes 5 to 9 stands.
pub fn keeps_standing()
    ensures { KeepsStanding }
{}

// An update gives at most 2 events for each step still to end and 1 more, none after the finish, so never more than the places that
// question 14 wants.
pub fn few_events()
    ensures { FewEvents }
{}

// With arrays of exactly the length that question 14 wants an update gives what it gives with 193 places.
pub fn small_arrays()
    ensures { SmallArrays }
{}

// An extend of an open step or after the finish gives `false`, one by 0 `true`, at the limit too; none of them changes the player.
pub fn idle_extends()
    ensures { IdleExtends }
{}
