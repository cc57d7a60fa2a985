// The 32-bit check of ITU-T V.42, as firmware_services::checksum has it: a register driven by a table, byte by byte.
#![tactic(auto)]

mod table;

ghost use Rattle.std.specs.Prelude.{◌≡◌, [], ◌∷◌};
ghost use Rattle.checksum.specs.V42.{Division, check_of};
ghost use Rattle.checksum.specs.Register.{byte_step, Agreement};

use table::TABLE;

// The register after one byte.
fn byte_step(register: u32, byte: u8) -> u32
    ensures { result ≡ byte_step register byte }
{
    let index = ((register ^ (byte as u32)) % 256) as usize;
    TABLE[index] ^ (register / 256)
}

pub fn crc32(bytes: &[u8]) -> u32
    ensures { result ≡ check_of bytes.now }
{
    let register = bytes
        .iter()
        .fold(0xffffffff, |register, byte| byte_step(register, *byte));
    register ^ 0xffffffff
}

// The remainder of the definition is the remainder by the generator. It does nothing: its contract is the statement.
pub fn division()
    ensures { Division }
{}

// The shift register, the table-driven register and V.42's remainders give the same check. It does nothing: its
// contract is the statement.
pub fn agreement()
    ensures { Agreement }
{}

// The check of "123456789". It does nothing: its contract is the statement.
pub fn check_value()
    ensures { check_of (49 ∷ 50 ∷ 51 ∷ 52 ∷ 53 ∷ 54 ∷ 55 ∷ 56 ∷ 57 ∷ []) ≡ 0xcbf43926 }
{}
