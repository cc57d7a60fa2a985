// For tests/oracle: the calls of crate `compare_files` as a static library.
#![tactic(auto)]

ghost use Rattle.std.specs.Prelude.{◌≡◌, min, length};
ghost use Rattle.decode.specs.Decode.{decode_of};
ghost use Rattle.encode.specs.Encode.{encoded_of, output_of};
ghost use Rattle.compare_files.specs.Files.{file_word, filled, written_number, question_word};

// The words of the answer on a file, as many as there are places for: the longest has 274.
#[unsafe(no_mangle)]
pub extern "C" fn compare_file(file: &[u8], answer: &mut [u32])
    ensures { answer.new ≡ filled (file_word (decode_of file.now)) answer.old (min (length answer.old) 280) }
{
    compare_files::compare_file(file, answer);
}

// What was read of a file, written again.
#[unsafe(no_mangle)]
pub extern "C" fn compare_written(file: &[u8], out: &mut [u8]) -> u32
    ensures value { result ≡ written_number (encoded_of (decode_of file.now).workout (length out.old)) }
    ensures out_after { out.new ≡ output_of (decode_of file.now).workout out.old }
{
    compare_files::compare_written(file, out)
}

// The word at a place of the answer to any question.
#[unsafe(no_mangle)]
pub extern "C" fn question_word(question: u32, input: &[u8], place: u32) -> u32
    ensures { result ≡ question_word question input.now place }
{
    compare_files::question_word(question, input, place)
}
