//! Division by 2^n, rounded down or to nearest, and what the stochastic mode needs of it.
ghost use Rattle.std.specs.Prelude.{◌≡◌, ◌-◌, ◌*◌, ◌/◌, ◌^◌, ◌<◌, ℤ, pos, ◌+ℤ◌, ◌<ℤ◌};
ghost use Rattle.whole.specs.Division.{floor, modulo};
ghost use Rattle.unit.specs.Rounding.{clamped};

use crate::settings::Settings;

impl Settings {
    /// The floor of x / 2^n, and what x is above 2^n times that.
    pub(crate) fn floor_and_rest(&self, x: i64) -> (i64, u64)
        ensures floor { result.0 ≡ floor x (2 ^ self.now.n) }
        ensures rest { result.1 ≡ modulo x (2 ^ self.now.n) }
        ensures below { result.1 < 2 ^ self.now.n }
        ensures room { result.0 <ℤ pos (2 ^ 62) }
    {
        let n = self.shift();
        let low_bits = (1 << n) - 1;
        (x >> n, x.cast_unsigned() & low_bits)
    }

    /// The whole number nearest to x / 2^n, the upper one of two.
    pub(crate) fn nearest(&self, x: i64) -> i64
        ensures { result ≡ floor (x +ℤ pos (2 ^ (self.now.n - 1))) (2 ^ self.now.n) }
    {
        let (floor, rest) = self.floor_and_rest(x);
        let half = 1 << (self.shift() - 1);
        if rest < half { floor } else { floor + 1 }
    }

    /// How many of the 2^k draws go up where x is `rest` above 2^n times its floor. It shifts, where fixed point divides.
    pub(crate) fn far_count(&self, rest: u64) -> u64
        requires { rest < 2 ^ self.now.n }
        ensures { result ≡ 2 ^ self.now.k.bits * rest / 2 ^ self.now.n }
    {
        (rest << self.draw_bits().get()) >> self.shift()
    }
}

/// The nearest signed 32-bit number.
pub(crate) fn clamp(z: i64) -> i32
    ensures { result ≡ clamped z }
{
    // it fits when it is clamped
    z.clamp(i64::from(i32::MIN), i64::from(i32::MAX)) as i32
}
