// Sets of numbers below 64 as masks of 64 bits.
#![tactic(auto)]

ghost use Rattle.std.specs.Prelude.{◌≡◌};
ghost use Rattle.masks.specs.Masks.{has_bit, Added};

// Whether the mask has the bit.
pub fn has_bit(mask: u64, bit: u32) -> bool
    ensures { result ≡ has_bit mask bit }
{
    bit < 64 && mask >> bit & 1 == 1
}

// The mask with the bit too.
pub fn with_bit(mask: u64, bit: u32) -> u64
    ensures { Added mask bit result }
{
    if bit < 64 { mask | 1 << bit } else { mask }
}
