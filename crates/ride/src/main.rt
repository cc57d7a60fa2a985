// Document 01, 'Bench sheet': "The program reads workout.bin and ride.bin, a missing one as empty", and prints a line of how the
// ride went, or of the question that refused it.
#![tactic(auto)]

ghost use Rattle.io.specs.Counts.{IsPrefixLen};

use line::LINE_ROOM;
use record_writer::RECORD_BYTES;
use std::fs;
use std::io::{self, Read, Write};
use std::rt::Files;

// One byte more than the longest workout file and the longest sheet, of 4,096 acts. A file that is longer still counts as that
// long: it is refused for its length all the same.
const WORKOUT_ROOM: usize = 476;

const SHEET_ROOM: usize = 36867;

// Reads until all places are full or the file ends. A file that can't be read to there counts as empty. No contract can say
// what is read.
fn read_on<R: Read>(file: &mut R, bytes: &mut [u8]) -> usize
    ensures { IsPrefixLen result bytes.new }
{
    let mut size = 0;
    while size < bytes.len() {
        match file.read(&mut bytes[size..]) {
            Ok(0) => return size,
            Ok(more) => size += more,
            Err(_) => return 0,
        }
    }
    size
}

// A missing file counts as empty too.
fn read_file<R: Files>(rt: &R, path: &str, bytes: &mut [u8]) -> usize
    ensures { IsPrefixLen result bytes.new }
{
    match fs::open(rt, path) {
        Ok(file) => {
            let mut open = file;
            read_on(&mut open, bytes)
        }
        Err(_) => 0,
    }
}

fn main(rt: HostRuntime) -> io::Result<()> {
    let mut workout = [0u8; WORKOUT_ROOM];
    let workout_size = read_file(&rt, "workout.bin", &mut workout);
    let mut sheet = [0u8; SHEET_ROOM];
    let sheet_size = read_file(&rt, "ride.bin", &mut sheet);
    // No record is written here: 19, asked of the room for one, is passed.
    let ridden = replay::ride_sheet(&workout[..workout_size], &sheet[..sheet_size], RECORD_BYTES);
    let mut text = [0u8; LINE_ROOM];
    let size = line::put_line(ridden, &mut text);
    io::writer(&rt).write_all(&text[..size])
}
