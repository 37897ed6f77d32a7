// The five timing rules.
ghost use Rattle.std.specs.Prelude.{◌≡◌, ℕ, Bool, not, ◌||◌, is_some};
ghost use Rattle.channel.specs.Timings.{cycle_time, cycle_ratio, send_time, feedback_time, record_place, fails1, fails2, fails3};

// The ring's timings, each if it is valid.
#[derive(Clone, Copy, PartialEq, Eq, Debug)]
pub struct Timings {
    pub ncyc: Option<u16>,
    pub scyc: Option<u16>,
    pub least: Option<u16>,
    pub t5: Option<u16>,
    pub t1: Option<u16>,
    pub t4: Option<u16>,
    pub position: Option<u16>,
    pub size: Option<u16>,
}

// Rule 1, on the ring's cycle time.
pub fn cycle_time(scyc: u16) -> bool
    ensures { result ≡ cycle_time scyc }
{
    scyc == 62 || scyc == 125 || (scyc % 250 == 0 && scyc >= 250 && scyc <= 65500)
}

// Rule 2, on the control's cycle time.
pub fn cycle_ratio(ncyc: u16, scyc: u16) -> bool
    ensures { result ≡ cycle_ratio ncyc scyc }
{
    ncyc > 0 && scyc > 0 && ncyc % scyc == 0
}

// Rule 3, on the AT's time slot.
pub fn send_time(least: u16, t1: u16, scyc: u16) -> bool
    ensures { result ≡ send_time least t1 scyc }
{
    least <= t1 && t1 < scyc
}

// Rule 4, on the time of feedback; the sum is taken in 32 bits, so that it cannot wrap.
pub fn feedback_time(t4: u16, t5: u16, scyc: u16) -> bool
    ensures { result ≡ feedback_time t4 t5 scyc }
{
    u32::from(t4) + u32::from(t5) < u32::from(scyc)
}

// Rule 5, on the drive's record in the MDT.
pub fn record_place(position: u16, size: u16) -> bool
    ensures { result ≡ record_place position size }
{
    position >= 1 && u32::from(position) + 3 <= u32::from(size)
}

// Whether a rule on one, two or three timings is tested, since all of them are valid, and fails.
// stays: a function for each number of timings, as the definitions have it; one over a tuple would have each rule take its timings out again.
fn fails1<F: Fn(u16) -> bool>(rule: F, x: Option<u16>) -> bool
    requires { F.IsAlwaysCallable rule }
    ensures { (p : ℕ → Bool) → ((a : ℕ) (r : Bool) → F.post rule a r → r ≡ p a) → result ≡ fails1 p x }
{
    x.is_some_and(|x| !rule(x))
}

fn fails2<F: Fn(u16, u16) -> bool>(rule: F, x: Option<u16>, y: Option<u16>) -> bool
    requires { F.IsAlwaysCallable rule }
    ensures { (p : ℕ → ℕ → Bool) → ((a b : ℕ) (r : Bool) → F.post rule a b r → r ≡ p a b) → result ≡ fails2 p x y }
{
    x.zip(y).is_some_and(|(x, y)| !rule(x, y))
}

fn fails3<F: Fn(u16, u16, u16) -> bool>(
    rule: F,
    x: Option<u16>,
    y: Option<u16>,
    z: Option<u16>,
) -> bool
    requires { F.IsAlwaysCallable rule }
    ensures { (p : ℕ → ℕ → ℕ → Bool) → ((a b c : ℕ) (r : Bool) → F.post rule a b c r → r ≡ p a b c) → result ≡ fails3 p x y z }
{
    x.zip(y).zip(z).is_some_and(|((x, y), z)| !rule(x, y, z))
}

impl Timings {
    // S-0-0001 is invalid, or rule 2 fails.
    pub fn names_ncyc(&self) -> bool
        ensures { result ≡ (not (is_some self.now.ncyc) || fails2 cycle_ratio self.now.ncyc self.now.scyc) }
    {
        self.ncyc.is_none() || fails2(cycle_ratio, self.ncyc, self.scyc)
    }

    // S-0-0002 is invalid, or rule 1 fails.
    pub fn names_scyc(&self) -> bool
        ensures { result ≡ (not (is_some self.now.scyc) || fails1 cycle_time self.now.scyc) }
    {
        self.scyc.is_none() || fails1(cycle_time, self.scyc)
    }

    // S-0-0006 is invalid, or rule 3 fails.
    pub fn names_t1(&self) -> bool
        ensures { result ≡ (not (is_some self.now.t1) || fails3 send_time self.now.least self.now.t1 self.now.scyc) }
    {
        self.t1.is_none() || fails3(send_time, self.least, self.t1, self.scyc)
    }

    // S-0-0007 is invalid, or rule 4 fails.
    pub fn names_t4(&self) -> bool
        ensures { result ≡ (not (is_some self.now.t4) || fails3 feedback_time self.now.t4 self.now.t5 self.now.scyc) }
    {
        self.t4.is_none() || fails3(feedback_time, self.t4, self.t5, self.scyc)
    }

    // S-0-0009 is invalid, or rule 5 fails.
    pub fn names_position(&self) -> bool
        ensures { result ≡ (not (is_some self.now.position) || fails2 record_place self.now.position self.now.size) }
    {
        self.position.is_none() || fails2(record_place, self.position, self.size)
    }
}
