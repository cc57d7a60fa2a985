// model.rs's `Name`: upper-case ASCII text of up to 20 bytes, and the test of question 5 for a name in memory.
#![tactic(auto)]

ghost use Rattle.std.specs.Prelude.{◌≡◌};
ghost use Rattle.names.specs.Names.{allowed, drawn, name_ok, name_from, empty_name, is_blank};

// Bytes in a workout or step name.
pub const NAME_BYTES: usize = 20;

#[derive(Clone, Copy, Drop, PartialEq, Eq)]
pub struct Name {
    pub bytes: [u8; 20],
    pub len: u8,
}

// The byte as the screen font can draw it: small letters as capitals, anything but space to `~` as a space.
fn drawn_byte(byte: u8) -> u8
    ensures { result ≡ drawn byte }
{
    if (97 <= byte) & (byte <= 122) {
        return byte - 32;
    }
    if (32 <= byte) & (byte <= 126) {
        return byte;
    }
    32
}

// A byte that a name may hold: from space to `~` without small letters.
pub fn allowed_byte(byte: u8) -> bool
    ensures { result ≡ allowed byte }
{
    ((32 <= byte) & (byte <= 96)) | ((123 <= byte) & (byte <= 126))
}

impl Name {
    // A name without bytes.
    pub fn empty() -> Self
        ensures { result ≡ empty_name }
    {
        Self {
            bytes: [0; 20],
            len: 0,
        }
    }

    // `text` cut to NAME_BYTES, upper-cased; bytes the screen font cannot draw become spaces.
    pub fn from_bytes(text: &[u8]) -> Self
        ensures { result ≡ name_from text.now }
    {
        let n = text.len().min(NAME_BYTES);
        let mut bytes = [0u8; 20];
        for (i, byte) in text[..n].iter().enumerate() {
            bytes[i] = drawn_byte(*byte);
        }
        Self {
            bytes,
            len: n as u8,
        }
    }

    // Question 5 of a name in memory.
    pub fn check(self) -> bool
        ensures { result ≡ name_ok self }
    {
        let len = self.len as usize;
        // One pass without a branch or an early exit: so it takes the same short time for each length.
        (self.len <= 20)
            & self.bytes.iter().enumerate().fold(true, |ok, (i, byte)| {
                ok & (((i < len) & allowed_byte(*byte)) | ((len <= i) & (*byte == 0)))
            })
    }

    // The name is the empty one, padding included.
    pub fn is_blank(self) -> bool
        ensures { result ≡ is_blank self }
    {
        (self.len == 0) & self.check()
    }
}
