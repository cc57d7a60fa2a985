// Request l, as statements about lists of calls: four bikes' calls in whatever order, and grants between them.
#![tactic(auto)]

ghost use Rattle.frame_records.specs.Apart.{RecordsApart};
ghost use Rattle.frame_records.specs.Accepted.{GrantsAccepted};
ghost use Rattle.frame_records.specs.Class.{FullClass};

// After every list of calls and grants each bike's player, and so its record, is that of its own calls alone.
pub fn records_apart()
    ensures { RecordsApart }
{}

// On bikes that start sound no grant is ever refused.
pub fn grants_accepted()
    ensures { GrantsAccepted }
{}

// A full class, the supply short, then one finishes.
pub fn full_class()
    ensures { FullClass }
{}
