//! Pseudorandom numbers from a seed.
ghost use Rattle.std.specs.Prelude.{◌≡◌, ◌<◌, ◌≤◌, ◌^◌, unsigned_abs};
ghost use Rattle.drill_log.specs.DrillLog.{centred, next_state};

/// A linear congruential generator. It drops its lowest eight bits, because they have short periods.
#[derive(Drop)]
pub(crate) struct DrawnNumbers {
    pub(crate) state: u32,
    ghost within: { state < 2 ^ 31 },
}

impl DrawnNumbers {
    /// Returns a generator with the seed as its state.
    pub(crate) fn new(seed: u32) -> DrawnNumbers
        requires { seed < 2 ^ 31 }
        ensures { result.state ≡ seed }
    {
        DrawnNumbers { state: seed }
    }

    /// Returns the next number, from `-half` to `half`.
    pub(crate) fn draw(&mut self, half: u32) -> i32
        requires { half ≤ 20000 }
        ensures state { self.new.state ≡ next_state self.old.state }
        ensures number { result ≡ centred half self.new.state }
        ensures small { unsigned_abs result ≤ half }
    {
        self.state = next_state(self.state);
        centred(half, self.state)
    }
}

fn next_state(state: u32) -> u32
    requires { state < 2 ^ 31 }
    ensures value { result ≡ next_state state }
    ensures within { result < 2 ^ 31 }
{
    ((u64::from(state) * 1_103_515_245 + 12_345) % 2_147_483_648) as u32
}

fn centred(half: u32, state: u32) -> i32
    requires { half ≤ 20000 }
    ensures value { result ≡ centred half state }
    ensures small { unsigned_abs result ≤ half }
{
    let number = (state / 256) % (2 * half + 1);
    number as i32 - half as i32
}
