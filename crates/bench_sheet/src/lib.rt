// Document 01, 'Bench sheet': the lines marked P, proved together as one fact.
#![tactic(auto)]

ghost use Rattle.bench_sheet.specs.BenchSheet.{BenchSheet};
ghost use Rattle.bench_sheet.specs.Facts.{Facts};

pub fn bench_sheet()
    ensures { BenchSheet }
{}

// Examples of what the bench sheet's lines leave out.
pub fn further_facts()
    ensures { Facts }
{}
