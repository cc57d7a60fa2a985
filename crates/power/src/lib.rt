// player.rs's `Power3s`: the last three power readings and their average. It is lent by its owner and takes one reading a call.
#![tactic(auto)]

ghost use Rattle.std.specs.Prelude.{◌≡◌, cond, ◌*◌, ◌≤◌};
ghost use Rattle.power.specs.Power.{one_present, mean_by, average_of, added};

// The last three power readings; `next` is the place of the oldest. An absent reading is `false` with 0 watts.
#[derive(Clone, Copy, Drop)]
pub struct Power3s {
    pub watts: [u16; 3],
    pub present: [bool; 3],
    pub next: u8,
}

// The watts of one place, 0 where its reading is absent.
fn given(present: bool, watts: u16) -> u32
    ensures { (result ≡ cond present watts 0) × (result ≤ 65535 * one_present present) × (result ≤ 65535) }
{
    if present { watts as u32 } else { 0 }
}

fn one_if(present: bool) -> u8
    ensures { (result ≡ one_present present) × (result ≤ 1) }
{
    if present { 1 } else { 0 }
}

// The mean of `count` readings, rounded half up: by cases, so that each division is by a constant.
fn mean(total: u32, count: u8) -> Option<u16>
    requires { (total ≤ 65535 * count) × (count ≤ 3) }
    ensures { result ≡ mean_by total count }
{
    if count == 3 {
        return Some(((total + 1) / 3) as u16);
    }
    if count == 2 {
        return Some(((total + 1) / 2) as u16);
    }
    if count == 1 {
        return Some(total as u16);
    }
    None
}

impl Power3s {
    // One reading more, in the place of the oldest. A place past the last is taken modulo 3.
    pub fn add(self, watts: Option<u16>) -> Power3s
        ensures { result ≡ added watts self }
    {
        let mut q = self;
        let at = (q.next % 3) as usize;
        let value = watts.unwrap_or(0);
        let present = watts.is_some();
        q.watts[at] = value;
        q.present[at] = present;
        q.next = ((at + 1) % 3) as u8;
        q
    }

    // The mean of the readings in the window, none without any.
    pub fn watts(self) -> Option<u16>
        ensures { result ≡ average_of self }
    {
        let watts = self.watts;
        let present = self.present;
        let total = given(present[0], watts[0])
            + given(present[1], watts[1])
            + given(present[2], watts[2]);
        let count = one_if(present[0]) + one_if(present[1]) + one_if(present[2]);
        mean(total, count)
    }
}

// One reading more for the average that is lent.
pub fn add_reading(power: &mut Power3s, watts: Option<u16>)
    ensures { power.new ≡ added watts power.old }
{
    *power = (*power).add(watts);
}

// The owner lends its average for one reading. By value, so that callers prove nothing about lending.
pub fn with_reading(power: Power3s, watts: Option<u16>) -> Power3s
    ensures { result ≡ added watts power }
{
    let mut own = power;
    add_reading(&mut own, watts);
    own
}
