// player.rs's `Events`, in two lent arrays: the events' kinds, and their values.
#![tactic(auto)]

ghost use Rattle.std.specs.Prelude.{◌≡◌, cond, [], ◌∷◌, ◌<◌, length};
ghost use Rattle.events.specs.Events.{event, events_if, Wrote};

// Seconds that are left of a timed step.
pub const COUNTDOWN: u8 = 0;
// A step began; the value is its position.
pub const STARTED: u8 = 1;
// The last step ended; the value is 0.
pub const FINISHED: u8 = 2;
// A test measured this FTP.
pub const FTP: u8 = 3;

// One event more at place `count`; the count after it.
pub fn push(kinds: &mut [u8], values: &mut [u16], count: usize, kind: u8, value: u16) -> usize
    requires { (count < length kinds.old) × (count < length values.old) }
    ensures { Wrote kinds.old values.old count kinds.new values.new result (event kind value ∷ []) }
{
    kinds[count] = kind;
    values[count] = value;
    count + 1
}

// The event, if it is due.
pub fn push_if(
    due: bool,
    kinds: &mut [u8],
    values: &mut [u16],
    count: usize,
    kind: u8,
    value: u16,
) -> usize
    requires { (count < length kinds.old) × (count < length values.old) }
    ensures { Wrote kinds.old values.old count kinds.new values.new result (events_if due (event kind value)) }
{
    if due {
        push(kinds, values, count, kind, value)
    } else {
        count
    }
}
