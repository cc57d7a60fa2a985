// codec.rs's `Reader`: the bytes and the place in them in one struct, with thin calls over the cursor's.
#![tactic(auto)]

ghost use Rattle.std.specs.Prelude.{◌≡◌};
ghost use Rattle.std.specs.Result.{result_ok};
ghost use Rattle.cursor.specs.Names.{taken_at, byte_at, name_at};
ghost use Rattle.reader.specs.Place.{past, moved_to};

use cursor::Cursor;
use names::Name;
use refusal::Refusal;

#[derive(Drop)]
pub struct Reader<'a> {
    pub bytes: &'a [u8],
    pub at: usize,
}

// Where the reader stands after a call: past what was handed out, or where it was.
fn past<T: Copy>(at: usize, found: Option<(T, Cursor)>) -> usize
    ensures { result ≡ past at found }
{
    match found {
        Some((_, next)) => next.at,
        None => at,
    }
}

impl<'a> Reader<'a> {
    pub fn take(&mut self, n: usize) -> Option<(usize, Cursor)>
        ensures { (result ≡ taken_at self.old.bytes.now self.old.at n) × (self.new ≡ moved_to self.old (past self.old.at result)) }
    {
        let taken = Cursor { at: self.at }.take(self.bytes, n);
        self.at = past(self.at, taken);
        taken
    }

    pub fn byte(&mut self) -> Option<(u8, Cursor)>
        ensures { (result ≡ byte_at self.old.bytes.now self.old.at) × (self.new ≡ moved_to self.old (past self.old.at result)) }
    {
        let byte = Cursor { at: self.at }.byte(self.bytes);
        self.at = past(self.at, byte);
        byte
    }

    // A refused name leaves the reader where it was. codec.rs's has then moved on, and nobody reads from it any more.
    pub fn name(&mut self) -> Result<(Name, Cursor), Refusal>
        ensures { (result ≡ name_at self.old.bytes.now self.old.at) × (self.new ≡ moved_to self.old (past self.old.at (result_ok result))) }
    {
        let name = cursor::read_name(self.bytes, Cursor { at: self.at });
        self.at = past(self.at, name.ok());
        name
    }
}

// A reader in a local, lent to its method. The contracts say nothing of a reader.
pub fn next_bytes(bytes: &[u8], cursor: Cursor, n: usize) -> Option<(usize, Cursor)>
    ensures { result ≡ taken_at bytes.now cursor.at n }
{
    let mut reader = Reader {
        bytes,
        at: cursor.at,
    };
    reader.take(n)
}

pub fn next_byte(bytes: &[u8], cursor: Cursor) -> Option<(u8, Cursor)>
    ensures { result ≡ byte_at bytes.now cursor.at }
{
    let mut reader = Reader {
        bytes,
        at: cursor.at,
    };
    reader.byte()
}

pub fn next_name(bytes: &[u8], cursor: Cursor) -> Result<(Name, Cursor), Refusal>
    ensures { result ≡ name_at bytes.now cursor.at }
{
    let mut reader = Reader {
        bytes,
        at: cursor.at,
    };
    reader.name()
}
