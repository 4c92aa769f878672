//! Draws and thresholds: their ranges, the value that a draw gives a key, and the guard that zeroes draws.
ghost use Rattle.std.specs.Prelude.{◌≡◌, length, replicate, pos, ◌+ℤ◌};
ghost use Rattle.std.specs.List.{list_all};
ghost use Rattle.release.specs.Draws.{draw_in_range, noise_in_range, threshold_in_range};

/// The greatest draw. The least is as far below zero.
pub(crate) const GREATEST_DRAW: i32 = 1_073_741_824;

/// The greatest threshold. The least is 1.
pub(crate) const GREATEST_THRESHOLD: u32 = 1_073_741_824;

/// Whether a draw, an own or a shared one, is in range.
pub(crate) fn in_range(draw: i32) -> bool
    ensures { result ≡ draw_in_range draw }
{
    (-GREATEST_DRAW..=GREATEST_DRAW).contains(&draw)
}

/// Whether every draw is in range.
pub(crate) fn all_in_range(draws: &[i32]) -> bool
    ensures { result ≡ list_all draw_in_range draws.now }
{
    for draw in draws {
        if !in_range(*draw) {
            return false;
        }
    }
    true
}

/// Whether the shared draw and every own draw are in range.
pub(crate) fn noise_in_range(shared: i32, draws: &[i32]) -> bool
    ensures { result ≡ noise_in_range shared draws.now }
{
    in_range(shared) && all_in_range(draws)
}

/// Whether a threshold is in range.
pub(crate) fn threshold_in_range(threshold: u32) -> bool
    ensures { result ≡ threshold_in_range threshold }
{
    (1..=GREATEST_THRESHOLD).contains(&threshold)
}

/// The value of a key: its count plus the shared draw plus its own draw. No such sum leaves 64 bits.
pub(crate) fn value(count: u32, shared: i32, draw: i32) -> i64
    ensures { result ≡ pos count +ℤ shared +ℤ draw }
{
    i64::from(count) + i64::from(shared) + i64::from(draw)
}

/// Over the caller's draws alone. When it ends, by whatever way out of the function that holds it, they are all zero.
pub(crate) struct DrawGuard<'a> {
    pub(crate) draws: &'a mut [i32],
}

impl Drop for DrawGuard<'_> {
    fn drop(self)
        ensures { self.exit.0.now ≡ replicate (length self.entry.draws.now) (pos 0) }
    {
        let DrawGuard { draws } = self;
        draws.fill(0);
    }
}
