// Rows of single bits.
ghost use Rattle.std.specs.Prelude.{◌≡◌, ◌*◌, ◌<◌, length};
ghost use Rattle.shared_bits.specs.Bits.{lit, flip_at};

// Whether the bit at the place is 1.
pub fn row_bit(row: &[u8], place: usize) -> bool
    requires { place < 8 * length row.now }
    ensures { result ≡ lit row.now place }
{
    (row[place / 8] >> (place % 8)) & 1 == 1
}

// Turns the bit at the place over.
pub fn flip_bit(row: &mut [u8], place: usize)
    requires { place < 8 * length row.old }
    ensures { row.new ≡ flip_at row.old place }
{
    row[place / 8] ^= 1 << (place % 8);
}
