// Fields of five bits, one after the other with no gap, so that one may lie across two bytes.
ghost use Rattle.std.specs.Prelude.{◌≡◌, ◌+◌, ◌*◌, ◌^◌, ◌<◌, ◌≤◌, length, slice_index};
ghost use Rattle.shared_bits.specs.Bits.{field_of, put_field, Written, word_at, spliced};

// The bytes at `from` and `from + 1` as one number; a byte past the end counts as 0.
fn word(area: &[u8], from: usize) -> u16
    requires { from < length area.now }
    ensures is { result ≡ word_at area.now from }
    ensures low { slice_index area.now from < 256 }
    ensures high { slice_index area.now (from + 1) < 256 }
{
    u16::from_le_bytes([area[from], area.get(from + 1).copied().unwrap_or(0)])
}

// The number with this value in place of its five bits from `shift` on.
fn splice(number: u16, shift: usize, value: u8) -> u16
    requires within { shift < 8 }
    requires small { value < 32 }
    ensures { result ≡ spliced number shift value }
{
    (number & !(31 << shift)) | (u16::from(value) << shift)
}

// The bucket's field. Each call asks that the field lies inside, as for an index.
pub fn read_field(area: &[u8], bucket: usize) -> u8
    requires few { bucket < 2 ^ 32 }
    requires inside { bucket * 5 + 5 ≤ 8 * length area.now }
    ensures { result ≡ field_of area.now bucket }
{
    let first = bucket * 5;
    let number = word(area, first / 8);
    ((number >> (first % 8)) & 31) as u8
}

// Writes the value into the bucket's field, and leaves every other bit as it was.
pub fn write_field(area: &mut [u8], bucket: usize, value: u8)
    requires small { value < 32 }
    requires few { bucket < 2 ^ 32 }
    requires inside { bucket * 5 + 5 ≤ 8 * length area.old }
    ensures is { area.new ≡ put_field area.old bucket value }
    ensures bits { Written area.old area.new bucket value }
{
    let first = bucket * 5;
    let low = first / 8;
    let old = word(area, low);
    let new = splice(old, first % 8, value);
    area[low] = (new % 256) as u8;
    if low + 1 < area.len() {
        area[low + 1] = (new / 256) as u8;
    }
}
