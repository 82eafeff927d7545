// A bit reader: a lent file and the bit at which it reads. Fields are taken one after another straight from the lent bytes.
// That a width is 1 to 32 is asked in each contract and is no type: a call writes it as a number, or hands on one that it was given or reckoned, and would make the type
// first. A file and a bit stay two for `field`, `pair`, `there` and `ends`, and in `source`: who calls them reads at a bit that was just reckoned, once, and would open a
// reader for that.
#![tactic(auto)]

ghost use Rattle.std.specs.Prelude.{◌≡◌, ◌+◌, ◌*◌, ◌^◌, ◌≤◌, ◌<◌, leb, length};
ghost use Rattle.bits.specs.Field.{field};
ghost use Rattle.reader.specs.File.{ends_at};

#[derive(Clone, Copy)]
pub struct Reader<'a> {
    pub file: &'a [u8],
    pub at: usize,
}

// A reader at a bit of a file.
pub fn open<'a>(file: &'a [u8], at: usize) -> Reader<'a>
    ensures { (result.file ≡ file.entry) × (result.at ≡ at) }
{
    Reader { file, at }
}

impl<'a> Reader<'a> {
    // The field of `width` bits at the reader's bit.
    pub fn take(self, width: usize) -> u32
        requires { (1 ≤ width) × (width ≤ 32) × (self.at + width ≤ 8 * length self.file.now) }
        ensures { result ≡ field self.entry.file.now self.entry.at width }
    {
        bits::take(self.file, self.at, width)
    }

    // The reader behind a field of `width` bits.
    pub fn past(self, width: usize) -> Reader<'a>
        requires { self.at + width < 2 ^ 64 }
        ensures { (result.file ≡ self.entry.file) × (result.at ≡ self.entry.at + width) }
    {
        Reader {
            at: self.at + width,
            ..self
        }
    }
}

// One field: a reader is opened, and a field taken.
pub fn field(file: &[u8], at: usize, width: usize) -> u32
    requires { (1 ≤ width) × (width ≤ 32) × (at + width ≤ 8 * length file.now) }
    ensures { result ≡ field file.now at width }
{
    open(file, at).take(width)
}

// Two fields, one after the other.
pub fn pair(file: &[u8], at: usize, first: usize, second: usize) -> (u32, u32)
    requires { (1 ≤ first) × (first ≤ 32) × (1 ≤ second) × (second ≤ 32) × (at + first < 2 ^ 64) × (at + first + second ≤ 8 * length file.now) }
    ensures { (result.0 ≡ field file.now at first) × (result.1 ≡ field file.now (at + first) second) }
{
    let reader = open(file, at);
    (reader.take(first), reader.past(first).take(second))
}

// Are the `width` bits at bit `at` all there?
pub fn there(file: &[u8], at: usize, width: usize) -> bool
    requires { (at ≤ 10000000) × (width ≤ 64) }
    ensures { result ≡ leb (at + width) (8 * length file.now) }
{
    (at + width).div_ceil(8) <= file.len()
}

// Is there nothing but fill from bit `at` on: the last byte is filled with zero bits, and nothing follows?
pub fn ends(file: &[u8], at: usize) -> bool
    requires { at ≤ 10000000 }
    ensures { result ≡ ends_at file.now at }
{
    if file.len() != at.div_ceil(8) {
        return false;
    }
    let fill = 8 * file.len() - at;
    fill == 0 || field(file, at, fill) == 0
}
