// Fences: which comes next, and how old one is.
ghost use Rattle.std.specs.Prelude.{◌≡◌};
ghost use Rattle.requests.specs.Fence.{after, age};

// 'the last fence starts at 65,535'
pub const FIRST_LAST: u16 = 65535;

// The next fence, counting up and wrapping at 65,536.
pub(crate) fn after(fence: u16) -> u16
    ensures { result ≡ after fence }
{
    if fence == 65535 { 0 } else { fence + 1 }
}

// How old a fence is beside the newest one: 0 for the newest itself, below 0 for older ones, by up to 32,768 fences.
pub fn age(fence: u16, newest: u16) -> i32
    ensures { result ≡ age fence newest }
{
    let d = (fence as u32 + 65536 - newest as u32) % 65536;
    if d < 32768 {
        d as i32
    } else {
        d as i32 - 65536
    }
}
