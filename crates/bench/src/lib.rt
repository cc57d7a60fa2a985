// The calls that bench/run times from outside: `crc32`; reading and writing a workout file and a ride record; rides of 250 ms, with
// question 20 at each and without; what one of four bikes gets of a supply.
#![tactic(auto)]

ghost use Rattle.std.specs.Prelude.{◌≡◌, true, length};
ghost use Rattle.checksum.specs.V42.{check_of};
ghost use Rattle.refusal.specs.Number.{answer_number};
ghost use Rattle.decode.specs.Decode as files;
ghost use Rattle.encode.specs.Encode.{encoded_of, output_of};
ghost use Rattle.history.specs.Decode as records;
ghost use Rattle.record_writer.specs.Write as written;
ghost use Rattle.compare_files.specs.Files.{file_word, written_number};
ghost use Rattle.compare_records.specs.Records.{read_word};
ghost use Rattle.standing.specs.Standing.{standing_of};
ghost use Rattle.bench.specs.Rides.{begun_of, ridden_of, rides_of};
ghost use Rattle.bench.specs.Grants.{asked_bikes, asked_watts, watts_total};

use frame::{Bike, grant};
use player::{ride, update_answer};
use readings::Sample;
use standing::is_standing;
use state::{Mm, Ms, Player};
use updates::ride_now;
use zones::TrainingProfile;

#[unsafe(no_mangle)]
pub extern "C" fn crc32_of(bytes: &[u8]) -> u32
    ensures { result ≡ check_of bytes.now }
{
    checksum::crc32(bytes)
}

// Any word of what was read: the place isn't known before the call, so nothing that is read can be left out.
#[unsafe(no_mangle)]
pub extern "C" fn read_file(file: &[u8], place: u32) -> u32
    ensures { result ≡ file_word (files.decode_of file.now) place }
{
    compare_files::file_word(decode::decode(file), place)
}

#[unsafe(no_mangle)]
pub extern "C" fn read_and_write_file(file: &[u8], out: &mut [u8]) -> u32
    ensures value { result ≡ written_number (encoded_of (files.decode_of file.now).workout (length out.old)) }
    ensures out_after { out.new ≡ output_of (files.decode_of file.now).workout out.old }
{
    compare_files::compare_written(file, out)
}

// Any word, as of a file.
#[unsafe(no_mangle)]
pub extern "C" fn read_record(bytes: &[u8], place: u32) -> u32
    ensures { result ≡ read_word (records.decode_of bytes.now) place }
{
    compare_records::record_word(bytes, place)
}

#[unsafe(no_mangle)]
pub extern "C" fn read_and_write_record(bytes: &[u8], out: &mut [u8]) -> u32
    ensures value { result ≡ answer_number (written.write_answer (records.decode_of bytes.now).«record» (length out.old)) }
    ensures out_after { out.new ≡ written.output_of (records.decode_of bytes.now).«record» out.old }
{
    compare_records::record_written(bytes, out)
}

// A fresh player of a workout file, after a reading of 150 W.
fn begun(file: &[u8]) -> Player
    ensures { result ≡ begun_of file.now }
{
    let decoded = decode::decode(file);
    let made = start::new(decoded.workout);
    let fresh = made.player;
    let sample = Sample {
        power_watts: Some(150),
        heart_bpm: None,
        cadence_tenths: None,
    };
    let update = player::read(fresh, sample);
    update.player
}

// A ride by the call from outside.
fn asked_ride(player: Player) -> Player
    ensures { result ≡ ridden_of player }
{
    let mut kinds: [u8; 193] = [0; 193];
    let mut values: [u16; 193] = [0; 193];
    let profile = TrainingProfile {
        ftp_watts: 200,
        lthr_bpm: 160,
    };
    let update = ride(player, Ms(250), Mm(2000), profile, &mut kinds, &mut values);
    update.player
}

// A ride of a player that is known to stand.
fn known_ride(player: Player) -> Player
    requires { standing_of player ≡ true }
    ensures { (result ≡ ridden_of player) × (standing_of result ≡ true) }
{
    let core = player.core;
    let readings = core.readings;
    let sample = readings.last_sample;
    let reading = sample.power_watts;
    // That the reading has 16 bits is part of what the next player stands on.
    reading.unwrap_or(0);
    let mut kinds: [u8; 193] = [0; 193];
    let mut values: [u16; 193] = [0; 193];
    let profile = TrainingProfile {
        ftp_watts: 200,
        lthr_bpm: 160,
    };
    match update_answer(core, Ms(250), Mm(2000), 193, 193) {
        Ok(()) => {
            let update = ride_now(player, Ms(250), Mm(2000), profile, &mut kinds, &mut values);
            update.player
        }
        Err(_) => player,
    }
}

// The total after `n` rides, question 20 asked at each.
#[unsafe(no_mangle)]
pub extern "C" fn asked_rides(file: &[u8], n: u32) -> u64
    ensures { result ≡ (rides_of n (begun_of file.now)).core.total_ms.0 }
{
    let mut player = begun(file);
    for _ in 0..n {
        player = asked_ride(player);
    }
    player.core.total_ms.0
}

// The same, question 20 asked once.
#[unsafe(no_mangle)]
pub extern "C" fn known_rides(file: &[u8], n: u32) -> u64
    ensures { result ≡ (rides_of n (begun_of file.now)).core.total_ms.0 }
{
    let mut player = begun(file);
    if !is_standing(player) {
        return player.core.total_ms.0;
    }
    for _ in 0..n {
        player = known_ride(player);
    }
    player.core.total_ms.0
}

// Four bikes with one player: each rider has a profile of their own.
fn asked_bikes(player: Player) -> [Bike; 4]
    ensures { result ≡ asked_bikes player }
{
    [
        Bike {
            player,
            profile: TrainingProfile {
                ftp_watts: 180,
                lthr_bpm: 160,
            },
        },
        Bike {
            player,
            profile: TrainingProfile {
                ftp_watts: 200,
                lthr_bpm: 160,
            },
        },
        Bike {
            player,
            profile: TrainingProfile {
                ftp_watts: 250,
                lthr_bpm: 160,
            },
        },
        Bike {
            player,
            profile: TrainingProfile {
                ftp_watts: 300,
                lthr_bpm: 160,
            },
        },
    ]
}

// The `i`-th grant: the bikes in turn, of a supply that goes from 700 to 899 W and back to 700.
fn asked_grant(bikes: [Bike; 4], i: u32) -> u16
    ensures { result ≡ asked_watts bikes i }
{
    let granted = grant(bikes, 700 + i % 200, i % 4);
    granted.watts
}

// The watts of `n` grants together.
#[unsafe(no_mangle)]
pub extern "C" fn asked_grants(file: &[u8], n: u32) -> u64
    ensures { result ≡ watts_total n (asked_bikes (begun_of file.now)) }
{
    let bikes = asked_bikes(begun(file));
    let mut total: u64 = 0;
    for i in 0..n {
        total += asked_grant(bikes, i) as u64;
    }
    total
}
