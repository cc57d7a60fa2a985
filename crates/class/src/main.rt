// Request l as a console uses it: four bikes in a full class, the supply short, then one finishes. A line for each says what the four
// brakes may draw. The numbers are proved too: `frame_records::full_class`.
#![tactic(auto)]

ghost use Rattle.std.specs.Prelude.{◌≡◌, ◌<◌};
ghost use Rattle.frame.specs.Frame.{four_grants};
ghost use Rattle.model.specs.declared.Length.TheVariants.{Time};
ghost use Rattle.model.specs.declared.Target.TheVariants.{Ftp};
ghost use Rattle.machine.specs.Cutting as calls;
ghost use Rattle.frame_records.specs.Apart.{after_call, changed_at};
ghost use Rattle.frame_records.specs.Class.{one_step, rider, riders};

use frame::{Bike, grant};
use model::{Intensity, Length, NO_BLOCK, NO_STEP, Step, Target, Test, Workout};
use names::Name;
use player::skip;
use zones::TrainingProfile;

// What the four brakes share, in watts.
const SUPPLY: u32 = 800;

// One step: ten minutes at 90 to 100 % of FTP.
fn class_workout() -> Workout
    ensures { result ≡ one_step (Time 600) (Ftp 90 100) }
{
    let mut steps = [NO_STEP; 12];
    steps[0] = Step {
        intensity: Intensity::Work,
        length: Length::Time(600),
        target: Target::Ftp { low: 90, high: 100 },
        note: Name::empty(),
    };
    Workout {
        name: Name::empty(),
        steps,
        step_count: 1,
        blocks: [NO_BLOCK; 8],
        block_count: 0,
        test: Test::None,
    }
}

// A bike at the start of the workout. FTP is its rider's: of each rider the step asks other watts.
fn class_bike(ftp: u16) -> Bike
    ensures { result ≡ rider ftp }
{
    let made = start::new(class_workout());
    let player = made.player;
    Bike {
        player,
        profile: TrainingProfile {
            ftp_watts: ftp,
            lthr_bpm: 160,
        },
    }
}

// Bikes 0 to 3.
fn class_bikes() -> [Bike; 4]
    ensures { result ≡ riders }
{
    [
        class_bike(200),
        class_bike(250),
        class_bike(300),
        class_bike(180),
    ]
}

// The rider skips the step that is on. A console shows the events that the call leaves in its two arrays; here they are dropped. Of
// a workout of one step they have three places (`reports::event_places` tells how many).
fn skipped_bike(bike: Bike) -> Bike
    ensures { result ≡ after_call (calls.skip 3 3) bike }
{
    let mut kinds: [u8; 3] = [0; 3];
    let mut values: [u16; 3] = [0; 3];
    let player = bike.player;
    let profile = bike.profile;
    let update = skip(player, &mut kinds, &mut values);
    let after = update.player;
    Bike {
        player: after,
        profile,
    }
}

// A bike's call changes that bike alone.
fn after_skip(bikes: [Bike; 4], bike: usize) -> [Bike; 4]
    requires { bike < 4 }
    ensures { result ≡ changed_at bike (after_call (calls.skip 3 3)) bikes }
{
    let mut after = bikes;
    after[bike] = skipped_bike(bikes[bike]);
    after
}

// A grant for each bike, of all four as they stand now. A refused one has 0 watts, and an `answer` that says why.
fn class_grants(bikes: [Bike; 4], supply: u32) -> [u16; 4]
    ensures { result ≡ four_grants bikes supply }
{
    let first = grant(bikes, supply, 0);
    let second = grant(bikes, supply, 1);
    let third = grant(bikes, supply, 2);
    let fourth = grant(bikes, supply, 3);
    [first.watts, second.watts, third.watts, fourth.watts]
}

// Prints the grants behind a title, and gives them, also where the line can't be printed.
fn print_grants(rt: &impl Print, title: &str, bikes: [Bike; 4]) -> [u16; 4]
    ensures { result ≡ four_grants bikes 800 }
{
    let grants = class_grants(bikes, SUPPLY);
    let [first, second, third, fourth] = grants;
    let _ = println!(rt; "{title} {first} {second} {third} {fourth}");
    grants
}

fn main(rt: HostRuntime) {
    let bikes = class_bikes();
    // The four want 200, 250, 300 and 180 W, which is 130 too many: bikes 1 and 2 get 210.
    print_grants(&rt, "supply 800 W:", bikes);
    // The workout has one step, so a bike that skips it is finished and wants nothing.
    print_grants(&rt, "bike 2 finished:", after_skip(bikes, 2));
}
