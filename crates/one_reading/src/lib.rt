// Document 02, n: what one reading can do to a test's FTP. The crate has statements; its functions compute nothing.
#![tactic(auto)]

ghost use Rattle.one_reading.specs.OneReading.{OneReading};
ghost use Rattle.one_reading.specs.Pairs.{SamplePairs};

// Of two lists of accepted calls that differ in one read, its power higher in the second, the second FTP isn't lower than the first, and
// is higher by the rise times the share of the test's time for which it was the latest reading, rounded up, at most.
pub fn one_reading()
    ensures { OneReading }
{}

// Pairs of lists in which the second FTP is as high as that allows.
pub fn sample_pairs()
    ensures { SamplePairs }
{}
