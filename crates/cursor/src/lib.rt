// codec.rs's reader as a by-value cursor over a slice: it hands out the next bytes or says that they end. `Reader` itself, which
// holds the slice, is a thin form over it.
#![tactic(auto)]

ghost use Rattle.std.specs.Prelude.{◌≡◌, ◌∷◌, ◌+◌, ◌-◌, ◌≤◌, length, take, drop};
ghost use Rattle.common.specs.Lists.{all, padded};
ghost use Rattle.names.specs.Names.{allowed};
ghost use Rattle.cursor.specs.Names.{taken_at, byte_at, name_at};

use names::{Name, allowed_byte};
use refusal::Refusal;

#[derive(Clone, Copy, Drop)]
pub struct Cursor {
    pub at: usize,
}

impl Cursor {
    // The place of the next `n` bytes, and the cursor past them.
    pub fn take(self, bytes: &[u8], n: usize) -> Option<(usize, Cursor)>
        ensures { result ≡ taken_at bytes.now self.at n }
    {
        let at = self.at;
        if n == 0 {
            return Some((at, Cursor { at }));
        }
        if bytes.len() <= at {
            return None;
        }
        if bytes.len() - at < n {
            return None;
        }
        Some((at, Cursor { at: at + n }))
    }

    // The next byte, and the cursor past it.
    pub fn byte(self, bytes: &[u8]) -> Option<(u8, Cursor)>
        ensures { result ≡ byte_at bytes.now self.at }
    {
        let at = self.at;
        if at < bytes.len() {
            Some((bytes[at], Cursor { at: at + 1 }))
        } else {
            None
        }
    }
}

fn all_allowed(bytes: &[u8], from: usize, n: usize) -> bool
    requires { from + n ≤ length bytes.now }
    ensures { result ≡ all allowed (take n (drop from bytes.now)) }
{
    // Each byte is looked at, also past a wrong one: without an early exit this compiles to vector code, which is faster.
    bytes[from..from + n]
        .iter()
        .fold(true, |ok, byte| ok & allowed_byte(*byte))
}

fn copied(bytes: &[u8], from: usize, n: usize) -> [u8; 20]
    requires { (from + n ≤ length bytes.now) × (n ≤ 20) }
    ensures { result ≡ padded 20 0 (take n (drop from bytes.now)) }
{
    let mut text = [0u8; 20];
    text[..n].copy_from_slice(&bytes[from..from + n]);
    text
}

// A length-prefixed name, upper case printable ASCII only, and the cursor past it.
pub fn read_name(bytes: &[u8], cursor: Cursor) -> Result<(Name, Cursor), Refusal>
    ensures { result ≡ name_at bytes.now cursor.at }
{
    let Some((len, after)) = cursor.byte(bytes) else {
        return Err(Refusal::Length);
    };
    if 20 < len {
        return Err(Refusal::Field);
    }
    let n = len as usize;
    let Some((from, next)) = after.take(bytes, n) else {
        return Err(Refusal::Length);
    };
    if !all_allowed(bytes, from, n) {
        return Err(Refusal::Field);
    }
    let text = copied(bytes, from, n);
    Ok((Name { bytes: text, len }, next))
}
