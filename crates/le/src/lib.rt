// Little-endian numbers in slices of bytes: get and put of 2, 4 and 8 bytes, as firmware_services::le has them.
#![tactic(auto)]

ghost use Rattle.std.specs.Prelude.{◌≡◌, [], ◌∷◌, ◌+◌, ◌≤◌, length};
ghost use Rattle.le.specs.Le.{number_of, bytes_of, part, written, Inverse};

// The N bytes from place `at` on.
fn bytes_at<const N: usize>(bytes: &[u8], at: usize) -> [u8; N]
    requires { at + N ≤ length bytes.now }
    ensures { result ≡ part bytes.now at N }
{
    let mut run = [0; N];
    run.copy_from_slice(&bytes[at..at + N]);
    run
}

// Stores N bytes from place `at` on.
fn put_bytes<const N: usize>(bytes: &mut [u8], at: usize, run: [u8; N])
    requires { at + N ≤ length bytes.old }
    ensures { bytes.new ≡ written bytes.old at run.entry }
{
    bytes[at..at + N].copy_from_slice(&run);
}

pub fn get_u16(bytes: &[u8], at: usize) -> u16
    requires { at + 2 ≤ length bytes.now }
    ensures { result ≡ number_of (part bytes.now at 2) }
{
    u16::from_le_bytes(bytes_at(bytes, at))
}

pub fn get_u32(bytes: &[u8], at: usize) -> u32
    requires { at + 4 ≤ length bytes.now }
    ensures { result ≡ number_of (part bytes.now at 4) }
{
    u32::from_le_bytes(bytes_at(bytes, at))
}

pub fn get_u64(bytes: &[u8], at: usize) -> u64
    requires { at + 8 ≤ length bytes.now }
    ensures { result ≡ number_of (part bytes.now at 8) }
{
    u64::from_le_bytes(bytes_at(bytes, at))
}

pub fn put_u8(bytes: &mut [u8], at: usize, value: u8)
    requires { at + 1 ≤ length bytes.old }
    ensures { bytes.new ≡ written bytes.old at (value ∷ []) }
{
    bytes[at] = value;
}

pub fn put_u16(bytes: &mut [u8], at: usize, value: u16)
    requires { at + 2 ≤ length bytes.old }
    ensures { bytes.new ≡ written bytes.old at (bytes_of 2 value) }
{
    put_bytes(bytes, at, u16::to_le_bytes(value));
}

pub fn put_u32(bytes: &mut [u8], at: usize, value: u32)
    requires { at + 4 ≤ length bytes.old }
    ensures { bytes.new ≡ written bytes.old at (bytes_of 4 value) }
{
    put_bytes(bytes, at, u32::to_le_bytes(value));
}

pub fn put_u64(bytes: &mut [u8], at: usize, value: u64)
    requires { at + 8 ≤ length bytes.old }
    ensures { bytes.new ≡ written bytes.old at (bytes_of 8 value) }
{
    put_bytes(bytes, at, u64::to_le_bytes(value));
}

// Reading what was written gives the number, and writing what was read gives the bytes. It does nothing: its contract
// is the statement.
pub fn inverse_laws()
    ensures { Inverse }
{}
