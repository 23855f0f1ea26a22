//! Sets of small numbers as masks.

ghost use Rattle.std.specs.Prelude.{◌≡◌};
ghost use Rattle.meaning.specs.Masks.{bit};

/// Whether a mask has bit i, counted from the lowest; none has a bit from 64 on.
pub fn has_bit(mask: u64, i: u8) -> bool
    ensures { result ≡ bit mask i }
{
    i < 64 && (mask >> i) % 2 == 1
}
