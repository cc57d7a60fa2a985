// Request l: four bikes share a supply of so many watts. Each gets what it wants or, where that is too much for the supply, what it
// wants up to a level that is the same for all.
#![tactic(auto)]

ghost use Rattle.std.specs.Prelude.{◌≡◌, ◌≤◌, ◌<◌, min, get_or};
ghost use Rattle.common.specs.Lists.{sum};
ghost use Rattle.supply.specs.Supply.{at_level, level_of, grants_of, SupplyShared};
ghost use Rattle.supply.specs.Samples.{SampleShares};

// What a bike gets at a level.
fn up_to(want: u16, level: usize) -> u16
    ensures { result ≡ min want level }
{
    (want as usize).min(level) as u16
}

// What the four draw together at a level.
fn drawn(wants: [u16; 4], level: usize) -> usize
    ensures { result ≡ sum (at_level level wants) }
{
    wants.iter().map(|want| up_to(*want, level) as usize).sum()
}

// The greatest level that the supply bears, up to the supply itself: the gap between one that it bears and one that it doesn't is
// halved until it is 1.
fn level(wants: [u16; 4], supply: usize) -> usize
    ensures { result ≡ level_of wants supply }
{
    let most = drawn(wants, supply);
    if most <= supply {
        return supply;
    }
    let mut low: usize = 0;
    let mut high: usize = supply;
    while 1 < high - low {
        let middle = low + (high - low) / 2;
        let total = drawn(wants, middle);
        if total <= supply {
            low = middle;
        } else {
            high = middle;
        }
    }
    low
}

// What one of the four gets. At the level of a supply that bears all wants no want is cut.
pub fn share(wants: [u16; 4], supply: u32, bike: usize) -> u16
    requires { bike < 4 }
    ensures { result ≡ get_or (grants_of wants supply) bike 0 }
{
    up_to(wants[bike], level(wants, supply as usize))
}

// The rule as the client states it, for four wants and a supply of any size.
pub fn supply_shared()
    ensures { SupplyShared }
{}

// Closed examples of the rule.
pub fn sample_shares()
    ensures { SampleShares }
{}
