// For tests/oracle: the calls of crate `compare_records` as a static library.
#![tactic(auto)]

ghost use Rattle.std.specs.Prelude.{◌≡◌, length};
ghost use Rattle.refusal.specs.Number.{answer_number};
ghost use Rattle.history.specs.Decode.{decode_of};
ghost use Rattle.record_writer.specs.Write.{write_answer, output_of};
ghost use Rattle.compare_records.specs.Records.{read_word, made_of};

// A word of what is read of a record: 29 in all.
#[unsafe(no_mangle)]
pub extern "C" fn record_word(bytes: &[u8], place: u32) -> u32
    ensures { result ≡ read_word (decode_of bytes.now) place }
{
    compare_records::record_word(bytes, place)
}

// Reads a record and writes it again; the number of the writer's refusal, or 0.
#[unsafe(no_mangle)]
pub extern "C" fn record_written(bytes: &[u8], out: &mut [u8]) -> u32
    ensures value { result ≡ answer_number (write_answer (decode_of bytes.now).«record» (length out.old)) }
    ensures out_after { out.new ≡ output_of (decode_of bytes.now).«record» out.old }
{
    compare_records::record_written(bytes, out)
}

// Writes the record of given fields; the number of the writer's refusal, or 0.
#[unsafe(no_mangle)]
pub extern "C" fn record_made(input: &[u8], out: &mut [u8]) -> u32
    ensures value { result ≡ answer_number (write_answer (made_of input.now) (length out.old)) }
    ensures out_after { out.new ≡ output_of (made_of input.now) out.old }
{
    compare_records::record_made(input, out)
}
