// A byte sought in a slice, and bytes copied to the front of a slice.
#![tactic(auto)]

ghost use Rattle.std.specs.Prelude.{◌≡◌, ◌≢◌, ◌+◌, ◌<◌, ◌≤◌, ◌++◌, ℕ, length, drop, slice_index};
ghost use Rattle.slices.specs.Bytes.{slice, index_of};

/// Copies bytes to the front of a slice that has room for them. What is behind them stays.
pub fn copy(from: &[u8], to: &mut [u8])
    requires { length from.now ≤ length to.old }
    ensures { to.new ≡ from.now ++ drop (length from.now) to.old }
{
    to[..from.len()].copy_from_slice(from);
}

/// The index of the first byte of that value from one index up to another, or the other where there is none.
pub fn find(bytes: &[u8], from: usize, to: usize, byte: u8) -> usize
    requires order { from ≤ to }
    requires within { to ≤ length bytes.now }
    ensures value { result ≡ from + index_of byte (slice from to bytes.now) }
    ensures bound { result ≤ to }
{
    for i in from..to {
        if bytes[i] == byte {
            return i;
        }
    }
    to
}
