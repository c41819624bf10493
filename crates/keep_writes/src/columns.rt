// What is stored of a number and of a digest.
ghost use Rattle.std.specs.Prelude.{◌≡◌, ◌<◌, ◌^◌, ℕ, length, get_or, pos};

/// A number as a column has it.
pub fn column(number: u64) -> i64
    requires { number < 2 ^ 63 }
    ensures { result ≡ pos number }
{
    number as i64
}

/// The bytes of a digest as a slice.
pub fn bytes_of(bytes: &[u8; 32]) -> &[u8]
    ensures same { result.now ≡ bytes.now }
    ensures long { length bytes.now ≡ 32 }
    ensures each { (i : ℕ) → get_or bytes.now i 0 < 256 }
{
    bytes.as_slice()
}
