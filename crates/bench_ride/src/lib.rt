// Document 01, 'Bench sheet': the program's own ride, from the bytes of its files to the record and the line, and a ride that is refused,
// as one fact; and the same workout with each kind of extend (document 02, i). The crate has the statements; its functions compute
// nothing.
#![tactic(auto)]

ghost use Rattle.bench_ride.specs.BenchRide.{BenchRide};
ghost use Rattle.bench_ride.specs.Extends.{ExtendedRides};

pub fn bench_ride()
    ensures { BenchRide }
{}

// What kinds 4 and 5 of a sheet give to its step.
pub fn extended_rides()
    ensures { ExtendedRides }
{}
