// The sharing rule on four wants, and the grant of four bikes that are each played by a list of calls, for tests only
// (tests/oracle/frame.rs compares both).
#![tactic(auto)]

ghost use Rattle.std.specs.Prelude.{◌≡◌, [], ◌∷◌, ◌-◌, ◌/◌, ◌≤◌, min, length};
ghost use Rattle.frame.specs.Frame.{grant_of};
ghost use Rattle.compare_frame.specs.Grants.{share_word, bike_after, grant_word};

use common::least;
use compare::refused_number;
use compare_player::{call_at, seen_at};
use frame::{Bike, grant};
use supply::share;

// What one of four wants gets; each want is the lower 16 bits of its word.
#[unsafe(no_mangle)]
pub extern "C" fn compare_share(a: u32, b: u32, c: u32, d: u32, supply: u32, bike: u32) -> u32
    ensures { result ≡ share_word (a ∷ b ∷ c ∷ d ∷ []) supply bike }
{
    let wants: [u16; 4] = [
        (a % 65536) as u16,
        (b % 65536) as u16,
        (c % 65536) as u16,
        (d % 65536) as u16,
    ];
    share(wants, supply, (bike % 4) as usize) as u32
}

// How many whole calls a list has, of 12,500 at most.
fn whole_calls(calls: &[u8]) -> u32
    ensures { (result ≡ min (length calls.now / 32) 12500) × (result ≤ 12500) }
{
    least(calls.len() / 32, 12500) as u32
}

// The place of the last of k calls, 0 where there is none.
fn last_place(k: u32) -> u32
    ensures { result ≡ k - 1 }
{
    if k == 0 { 0 } else { k - 1 }
}

// The player of a workout file after a list of calls, with the last one's profile.
fn bike_after(file: &[u8], calls: &[u8]) -> Bike
    ensures { result ≡ bike_after file.now calls.now }
{
    let k = whole_calls(calls);
    let seen = seen_at(file, calls, k);
    let player = seen.player;
    let call = call_at(calls, last_place(k));
    let profile = call.profile;
    Bike { player, profile }
}

// What one of four bikes gets, each given by a workout file and a list of calls: 65,536 times the question's number, and the watts.
#[unsafe(no_mangle)]
pub extern "C" fn compare_grant(
    file0: &[u8],
    calls0: &[u8],
    file1: &[u8],
    calls1: &[u8],
    file2: &[u8],
    calls2: &[u8],
    file3: &[u8],
    calls3: &[u8],
    supply: u32,
    bike: u32,
) -> u32
    ensures { result ≡ grant_word (grant_of (bike_after file0.now calls0.now ∷ bike_after file1.now calls1.now ∷ bike_after file2.now calls2.now ∷ bike_after file3.now calls3.now ∷ []) supply bike) }
{
    let first = bike_after(file0, calls0);
    let second = bike_after(file1, calls1);
    let third = bike_after(file2, calls2);
    let fourth = bike_after(file3, calls3);
    let granted = grant([first, second, third, fourth], supply, bike);
    let answer = granted.answer;
    65536 * refused_number(answer) + (granted.watts as u32)
}
