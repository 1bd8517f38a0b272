//! Numbers in bytes, the lowest byte first.
ghost use Rattle.std.specs.Prelude.{◌≡◌, ℕ, ◌+◌, ◌≤◌, length, take, drop};
ghost use Rattle.scheme_file.specs.Bytes.{le, value};

/// A number of N bytes.
pub trait Number<const N: usize>: Copy {
    ghost amount: { Self → ℕ };

    /// The number that the bytes make.
    fn from_bytes(bytes: &[u8; N]) -> Self
        ensures { amount result ≡ value bytes.now };

    /// The bytes of the number.
    fn to_bytes(self) -> [u8; N]
        ensures { result ≡ le N (amount self) };
}

impl Number<2> for u16 {
    ghost amount = { λ x. x };

    fn from_bytes(bytes: &[u8; 2]) -> u16 {
        u16::from_le_bytes(*bytes)
    }

    fn to_bytes(self) -> [u8; 2] {
        self.to_le_bytes()
    }
}

impl Number<8> for u64 {
    ghost amount = { λ x. x };

    fn from_bytes(bytes: &[u8; 8]) -> u64 {
        u64::from_le_bytes(*bytes)
    }

    fn to_bytes(self) -> [u8; 8] {
        self.to_le_bytes()
    }
}

/// The number in the N bytes at an offset.
pub fn number_at<const N: usize, T: Number<N>>(bytes: &[u8], at: usize) -> T
    requires { at + N ≤ length bytes.now }
    ensures value { T.amount result ≡ value (take N (drop at bytes.now)) }
    ensures bytes { le N (T.amount result) ≡ take N (drop at bytes.now) }
{
    T::from_bytes(bytes[at..].first_chunk().unwrap())
}
