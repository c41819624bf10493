// The end of a line, which is written from its last byte to its first.
ghost use Rattle.std.specs.Prelude.{◌≡◌, ◌+◌, ◌<◌, ◌≤◌, ◌∷◌, ◌++◌, length, drop, pos};
ghost use Rattle.std.specs.Fmt.{signed_decimal};

use itoa::write_digits;

/// A byte before what stands from `end` on.
#[inline(always)]
pub fn put_byte(b: u8, line: &mut [u8], end: usize) -> usize
    requires some { 0 < end }
    requires inside { end ≤ length line.old }
    ensures start { result + 1 ≡ end }
    ensures written { drop result line.new ≡ b ∷ drop end line.old }
{
    line[end - 1] = b;
    end - 1
}

/// A comma and a number before what stands from `end` on.
#[inline(always)]
pub fn put_field(n: u64, line: &mut [u8], end: usize) -> usize
    requires some { 21 ≤ end }
    requires inside { end ≤ length line.old }
    ensures low { end ≤ result + 21 }
    ensures high { result ≤ end }
    ensures written { drop result line.new ≡ 44 ∷ (signed_decimal (pos n) ++ drop end line.old) }
{
    let at = write_digits(n, line, end);
    put_byte(b',', line, at)
}

/// The same of a number that may be negative.
#[inline(always)]
pub fn put_signed(z: i16, line: &mut [u8], end: usize) -> usize
    requires some { 22 ≤ end }
    requires inside { end ≤ length line.old }
    ensures low { end ≤ result + 22 }
    ensures high { result ≤ end }
    ensures written { drop result line.new ≡ 44 ∷ (signed_decimal z ++ drop end line.old) }
{
    if z >= 0 {
        return put_field(z as u64, line, end);
    }
    let at = write_digits(u64::from(z.unsigned_abs()), line, end);
    let at = put_byte(b'-', line, at);
    put_byte(b',', line, at)
}
