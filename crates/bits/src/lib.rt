// One field of 1 to 32 bits in lent bytes, most significant bit first, by whole bytes.
// That a width is 1 to 32, and that a value fits it, is asked in each contract and is no type: from above it comes as a number or as what a subtraction left, here it is
// handed on to be added and shifted by, and a type would be made at each call and taken apart at each sum; the value's own clause bounds it. A slice, a place and a count
// stay three in `gather` and `scatter`: their promises speak of bits of the whole, to which those of a part would have to be led back.
#![tactic(auto)]

ghost use Rattle.std.specs.Prelude.{◌≡◌, ◌+◌, ◌*◌, ◌/◌, ◌%◌, ◌^◌, ◌≤◌, ◌<◌, length, replicate};
ghost use Rattle.bits.specs.Field.{field, Put};
ghost use Rattle.bits.specs.Word.{spliced, Stored};

// The `count` bytes from `i` on as one number. Eight are one load: LLVM sees that all eight are copied and read.
fn gather(s: &[u8], i: usize, count: usize) -> u64
    requires { (count ≤ 8) × (i + count ≤ length s.now) }
    ensures { result ≡ field s.now (8 * i) (8 * count) }
{
    let mut bytes = [0; 8];
    bytes[8 - count..].copy_from_slice(&s[i..i + count]);
    u64::from_be_bytes(bytes)
}

// `width` bits of a number, without the lowest `down`.
fn cut(word: u64, down: usize, width: usize) -> u32
    requires { (down < 64) × (width ≤ 32) }
    ensures { result ≡ word / 2 ^ down % 2 ^ width }
{
    ((word >> down) % (1 << width)) as u32
}

// The same as `take`, by way of the `count` bytes from the field's first on, which hold the whole field: with eight, one load, one shift and one mask.
fn take_among(s: &[u8], at: usize, width: usize, count: usize) -> u32
    requires { (1 ≤ width) × (width ≤ 32) × (count ≤ 8) × (at % 8 + width ≤ 8 * count) × (at / 8 + count ≤ length s.now) }
    ensures { result ≡ field s.now at width }
{
    cut(gather(s, at / 8, count), 8 * count - at % 8 - width, width)
}

// The field of `width` bits at bit `at`: eight bytes in one load where they are there; near the end, those that are left.
pub fn take(s: &[u8], at: usize, width: usize) -> u32
    requires { (1 ≤ width) × (width ≤ 32) × (at + width ≤ 8 * length s.now) }
    ensures { result ≡ field s.now at width }
{
    if at / 8 + 8 <= s.len() {
        take_among(s, at, width, 8)
    } else {
        take_among(s, at, width, s.len() - at / 8)
    }
}

// `word` with `value` in place of the `width` bits above its lowest `down`.
fn splice(word: u64, down: usize, width: usize, value: u32) -> u64
    requires { (1 ≤ width) × (width ≤ 32) × (down + width ≤ 64) × (value < 2 ^ width) }
    ensures { result ≡ spliced word down width value }
{
    word - (u64::from(cut(word, down, width)) << down) + (u64::from(value) << down)
}

// The lowest `count` bytes of `word` into the bytes from `i` on. Eight are one store.
fn scatter(s: &mut [u8], i: usize, count: usize, word: u64)
    requires { (count ≤ 8) × (i + count ≤ length s.old) × (word < 2 ^ (8 * count)) }
    ensures { Stored s.old s.new i count word }
{
    s[i..i + count].copy_from_slice(&word.to_be_bytes()[8 - count..]);
}

// The same as `put`, by way of the `count` bytes from the field's first on, which hold the whole field.
fn put_among(s: &mut [u8], at: usize, width: usize, value: u32, count: usize)
    requires { (1 ≤ width) × (width ≤ 32) × (value < 2 ^ width) × (count ≤ 8) × (at % 8 + width ≤ 8 * count) × (at / 8 + count ≤ length s.old) }
    ensures { Put s.old s.new at width value }
{
    let i = at / 8;
    let skip = at % 8;
    let word = splice(gather(s, i, count), 8 * count - skip - width, width, value);
    scatter(s, i, count, word);
}

// The field of `width` bits at bit `at` becomes `value`; every other bit is kept. Eight bytes in one store where they are
// there; near the end, just the bytes that hold the field.
pub fn put(s: &mut [u8], at: usize, width: usize, value: u32)
    requires { (1 ≤ width) × (width ≤ 32) × (value < 2 ^ width) × (at + width ≤ 8 * length s.old) }
    ensures { Put s.old s.new at width value }
{
    if at / 8 + 8 <= s.len() {
        put_among(s, at, width, value, 8);
    } else {
        put_among(s, at, width, value, (at % 8 + width).div_ceil(8));
    }
}

// Every byte becomes 0: what a file's fields are put into.
pub fn clear(out: &mut [u8])
    ensures { out.new ≡ replicate (length out.old) 0 }
{
    out.fill(0);
}
