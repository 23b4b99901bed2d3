ghost use Rattle.std.specs.Prelude.{◌≡◌, ◌+◌, ◌-◌, ◌*◌, ◌/◌, ◌%◌, ◌^◌, ◌≤◌, ◌<◌, ◌++◌, length, take, drop};
ghost use Rattle.gs_bits.specs.Bits.{bits_of, number_of};
ghost use Rattle.gs_bits.specs.PackedBits.{bits_of_bytes, packed_bits};

/// Returns the number of the n bits from a place on in some bytes. Eight bytes that hold them are read at once.
pub(crate) fn number_in(bytes: &[u8], from: usize, n: u32) -> u64
    requires width { n ≤ 64 }
    requires small { length bytes.now ≤ 64 }
    requires within { from + n ≤ 8 * length bytes.now }
    ensures { result ≡ number_of (take n (drop from (bits_of_bytes bytes.now))) }
{
    let before = (from % 8) as u32;
    if 0 < n && before + n <= 64 {
        if let Some(eight) = bytes[from / 8..].first_chunk::<8>() {
            return u64::from_be_bytes(*eight) << before >> (64 - n);
        }
    }
    number_by_bytes(bytes, from, n)
}

/// Returns the number of the n bits from a place on in some bytes, taken a byte at a time.
fn number_by_bytes(bytes: &[u8], from: usize, n: u32) -> u64
    requires width { n ≤ 64 }
    requires small { length bytes.now ≤ 64 }
    requires within { from + n ≤ 8 * length bytes.now }
    ensures { result ≡ number_of (take n (drop from (bits_of_bytes bytes.now))) }
{
    let mut number: u64 = 0;
    let mut at = from;
    let mut left = n;
    while left > 0 {
        let ahead = 8 - (at % 8) as u32;
        let step = ahead.min(left);
        let piece = field(u64::from(bytes[at / 8]), ahead - step, step);
        number = (number << step) + piece;
        at += step as usize;
        left -= step;
    }
    number
}

/// Writes the n bits of a number after the first bits of some bytes, a byte at a time.
pub(crate) fn write_behind(bytes: &mut [u8], len: usize, value: u64, n: u32)
    requires width { n ≤ 64 }
    requires small { length bytes.old ≤ 64 }
    requires within { len + n ≤ 8 * length bytes.old }
    ensures { packed_bits (len + n) bytes.new ≡ packed_bits len bytes.old ++ bits_of n value }
{
    let mut at = len;
    let mut left = n;
    while left > 0 {
        let room = 8 - (at % 8) as u32;
        let step = room.min(left);
        let piece = field(value, left - step, step);
        bytes[at / 8] = with_piece(bytes[at / 8], room, piece, step);
        at += step as usize;
        left -= step;
    }
}

/// Returns the bits of a number above its lowest `below`, as many as `width`.
fn field(number: u64, below: u32, width: u32) -> u64
    requires narrow { width ≤ 8 }
    requires within { below < 64 }
    ensures { result ≡ number / 2 ^ below % 2 ^ width }
{
    (number >> below) % (1 << width)
}

/// Returns a byte whose lowest `room` bits are free, with a piece of that many bits at the start of them.
fn with_piece(byte: u8, room: u32, piece: u64, width: u32) -> u8
    requires free { room ≤ 8 }
    requires fits { width ≤ room }
    requires narrow { piece < 2 ^ width }
    ensures { result / 2 ^ (room - width) ≡ byte / 2 ^ room * 2 ^ width + piece }
{
    let front = (u64::from(byte) >> room << width) + piece;
    (front << (room - width)) as u8
}
