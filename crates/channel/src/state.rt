// When a state fits, and why a step that goes on is refused. All of it is judged on plain numbers: a state's four
// counts and the first dwords of its copy, each taken once by whoever keeps the state.
ghost use Rattle.std.specs.Prelude.{◌≡◌, [], ◌∷◌, ◌&&◌, ◌+◌, ◌*◌, ◌<◌, ◌^◌, length, get_or};
ghost use Rattle.refusal.specs.Numbers.{number_of};
ghost use Rattle.channel.specs.State.{of_state, counts_of, counted, zeros, all_zero};
ghost use Rattle.channel.specs.State.{idle_at, idle, active_send, active_receive};
ghost use Rattle.ring.specs.Numbers.{need, first_needs};
ghost use Rattle.channel.specs.Receive.{publish_number_of};

use message::MESSAGE_MAX;
use refusal::Refusal;
use ring::first_needs;

// What a side keeps between its steps: the n dwords of the buffer that it was made for, and its own offset. Mid-call it
// has its own copy of a message of len dwords, of which moved are in the buffer, or out of it.
#[derive(Clone, Copy)]
pub struct SideState {
    pub n: usize,
    pub own: usize,
    pub len: usize,
    pub moved: usize,
    pub copy: [u32; MESSAGE_MAX],
}

impl SideState {
    // The idle state made for n dwords, at an own offset.
    pub fn idle_at(n: usize, own: usize) -> Self
        ensures { of_state result ≡ idle_at n own }
    {
        Self {
            n,
            own,
            len: 0,
            moved: 0,
            copy: no_copy(),
        }
    }

    // The state's numbers.
    pub(crate) fn counts(&self) -> Counts
        ensures { result ≡ counts_of (of_state self.now) }
    {
        Counts {
            n: self.n,
            own: self.own,
            len: self.len,
            moved: self.moved,
        }
    }

    // Whether the state is idle and fits a buffer of n dwords.
    pub(crate) fn is_idle(&self, n: usize) -> bool
        ensures { result ≡ idle n (of_state self.now) }
    {
        self.counts().fits_idle(n, &self.copy)
    }
}

// Two dwords as one number, which the compiler loads at once.
fn pair(low: u32, high: u32) -> u64
    ensures { result ≡ low + high * 2 ^ 32 }
{
    u64::from(low) + u64::from(high) * 0x1_0000_0000
}

// Dwords 2k and 2k + 1.
fn pair_at(s: &[u32], k: usize) -> u64
    requires { 2 * k + 1 < length s.now }
    ensures { result ≡ get_or s.now (2 * k) 0 + get_or s.now (2 * k + 1) 0 * 2 ^ 32 }
{
    let low = 2 * k;
    pair(s[low], s[low + 1])
}

// Whether the dwords of four equal parts are all 0: each part's are joined by `|`, two at a time, and the joins are
// tested once. No join waits for another's, which counts where there are no wide registers.
fn parts_zero(p: &[u32], q: &[u32], r: &[u32], t: &[u32], pairs: usize) -> bool
    requires { (length p.now ≡ 2 * pairs) × (length q.now ≡ 2 * pairs)
        × (length r.now ≡ 2 * pairs) × (length t.now ≡ 2 * pairs) }
    ensures { result ≡ (all_zero p.now && all_zero q.now
        && all_zero r.now && all_zero t.now) }
{
    let mut a: u64 = 0;
    let mut b: u64 = 0;
    let mut c: u64 = 0;
    let mut d: u64 = 0;
    for k in 0..pairs {
        a |= pair_at(p, k);
        b |= pair_at(q, k);
        c |= pair_at(r, k);
        d |= pair_at(t, k);
    }
    (a | b | c | d) == 0
}

// Whether the few dwords behind the four parts are all 0.
fn rest_zero(s: &[u32]) -> bool
    ensures { result ≡ all_zero s.now }
{
    s.iter().all(|x| *x == 0)
}

// Whether the dwords are all 0.
fn all_zero(s: &[u32]) -> bool
    ensures { result ≡ all_zero s.now }
{
    let pairs = s.len() / 8;
    let half = 4 * pairs;
    let front = &s[0..half];
    let back = &s[half..2 * half];
    let quarter = 2 * pairs;
    parts_zero(
        &front[0..quarter],
        &front[quarter..],
        &back[0..quarter],
        &back[quarter..],
        pairs,
    ) & rest_zero(&s[2 * half..])
}

// A copy of all zeros, which an idle state has.
pub fn no_copy() -> [u32; MESSAGE_MAX]
    ensures { result ≡ zeros }
{
    [0; MESSAGE_MAX]
}

// What a step that goes on needs: 1, 2, 3, then 12 where its own test fails.
fn step_needs(descriptor: usize, n: usize, fits: bool, test: bool) -> Result<(), Refusal>
    ensures { number_of result ≡ first_needs descriptor n fits (need test 12 0) }
{
    first_needs(descriptor, n, fits)?;
    if !test {
        return Err(Refusal::OutOfTurn);
    }
    Ok(())
}

// The numbers of a state, beside its copy.
#[derive(Clone, Copy)]
pub struct Counts {
    pub n: usize,
    pub own: usize,
    pub len: usize,
    pub moved: usize,
}

impl Counts {
    // Whether the state is idle and fits a buffer of n dwords.
    pub fn fits_idle(self, n: usize, copy: &[u32]) -> bool
        ensures { result ≡ idle n (counted self copy.now) }
    {
        (self.n == n) & (self.own < n) & (self.len == 0) & (self.moved == 0) & all_zero(copy)
    }

    // Whether the state is an active sender's and fits, by the first two dwords of its copy.
    fn fits_sending(self, n: usize, header: u32, word: u32) -> bool
        ensures { result ≡ active_send n (counted self (header ∷ word ∷ [])) }
    {
        if self.n != n {
            return false;
        }
        if n <= self.own {
            return false;
        }
        if self.len < 2 {
            return false;
        }
        if MESSAGE_MAX < self.len {
            return false;
        }
        if self.len < self.moved {
            return false;
        }
        if self.len != message::total_length(header) {
            return false;
        }
        message::well_formed(header, word)
    }

    // Whether the state is an active receiver's and fits, by the header in its copy.
    fn fits_receiving(self, n: usize, header: u32) -> bool
        ensures { result ≡ active_receive n (counted self (header ∷ [])) }
    {
        if self.n != n {
            return false;
        }
        if n <= self.own {
            return false;
        }
        if self.len != message::total_length(header) {
            return false;
        }
        if self.moved < 1 {
            return false;
        }
        self.moved <= self.len
    }

    // What a step that goes on with a send needs, with whether its own test holds.
    pub fn sending_needs(
        self,
        header: u32,
        word: u32,
        descriptor: usize,
        n: usize,
        test: bool,
    ) -> Result<(), Refusal>
        ensures { number_of result
            ≡ first_needs descriptor n (active_send n (counted self (header ∷ word ∷ []))) (need test 12 0) }
    {
        step_needs(descriptor, n, self.fits_sending(n, header, word), test)
    }

    // The same of a step that goes on with a receive.
    pub fn receiving_needs(
        self,
        header: u32,
        descriptor: usize,
        n: usize,
        test: bool,
    ) -> Result<(), Refusal>
        ensures { number_of result
            ≡ first_needs descriptor n (active_receive n (counted self (header ∷ []))) (need test 12 0) }
    {
        step_needs(descriptor, n, self.fits_receiving(n, header), test)
    }

    // What a receive's publish needs: 1, 2 and 3, then 5, 12 and 13, by the first two dwords of the copy.
    pub fn publish_needs(
        self,
        header: u32,
        second: u32,
        output: usize,
        descriptor: usize,
        n: usize,
    ) -> Result<(), Refusal>
        ensures { number_of result
            ≡ publish_number_of (counted self (header ∷ second ∷ [])) output descriptor n }
    {
        first_needs(descriptor, n, self.fits_receiving(n, header))?;
        if output < MESSAGE_MAX {
            return Err(Refusal::ShortOutput);
        }
        if self.moved < self.len {
            return Err(Refusal::OutOfTurn);
        }
        if !message::well_formed(header, second) {
            return Err(Refusal::Malformed);
        }
        Ok(())
    }
}
