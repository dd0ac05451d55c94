ghost use Rattle.std.specs.Prelude.{◌≡◌, ◌↔◌, IsTrue};

/// Whether both have the same bits in the same order.
pub fn are_same_bits(bits: &[bool], others: &[bool]) -> bool
    ensures { IsTrue result ↔ (bits.now ≡ others.now) }
{
    bits == others
}

/// Whether both have the same numbers in the same order.
pub fn are_same_numbers(numbers: &[u32], others: &[u32]) -> bool
    ensures { IsTrue result ↔ (numbers.now ≡ others.now) }
{
    numbers == others
}

/// Whether both have the same positions in the same order.
pub fn are_same_positions(positions: &[usize], others: &[usize]) -> bool
    ensures { IsTrue result ↔ (positions.now ≡ others.now) }
{
    positions == others
}
