// The number that digits say.
ghost use Rattle.std.specs.Prelude.{◌≡◌};
ghost use Rattle.sheet.specs.Numerals.{all_digits, spare_zero, numeral};

/// Whether a word has digits alone.
pub(crate) fn all_digits(bytes: &[u8]) -> bool
    ensures { result ≡ all_digits bytes.now }
{
    bytes.iter().all(u8::is_ascii_digit)
}

// Whether a zero leads that is not the whole.
fn spare_zero(bytes: &[u8]) -> bool
    ensures { result ≡ spare_zero bytes.now }
{
    matches!(bytes, [b'0', _, ..])
}

/// The number that a word says, if it says one of 32 bits.
pub(crate) fn number(bytes: &[u8]) -> Option<u32>
    ensures { result ≡ numeral bytes.now }
{
    if !all_digits(bytes) || spare_zero(bytes) {
        return None;
    }
    // Kept: a loop that ends where the number is too large; with `parse`, which was tried, both answers stay open.
    let mut n = 0u32;
    for b in bytes {
        n = n.checked_mul(10)?.checked_add(u32::from(*b - b'0'))?;
    }
    Some(n)
}
