// Fields from a file or from a list of numbers, several at once: one load for a leg's four fields, one for a band's two.
// That a place is at most 1,000,000 is asked in each contract, the trait's too, and is no type: it keeps sums from overflowing, and the bound differs from one
// function to the next: `network` asks for 900,000 before a leg's bands and for 800,000 before a leg, so that a place that has moved on is still within it.
#![tactic(auto)]

ghost use Rattle.std.specs.Prelude.{◌≡◌, ℕ, ◌+◌, ◌-◌, ◌*◌, ◌≤◌, ◌<◌, ltb, length, get_or};
ghost use Rattle.std.specs.Bool.{then_some};
ghost use Rattle.bits.specs.Field.{field};
ghost use Rattle.source.specs.Source.{Source, file_of, list_of, Whole, head_widths, band_widths, Parts};
ghost use Rattle.source.specs.Fields.{Listed, TopFields, HeadFields, BandFields};
ghost use Rattle.std.proofs.Math.Nat.{le_refl, add-le-add};

// N fields that stand one after another, and the place after the last. They are cut out of one load, where one test settles that all are there: so how many are
// there, or more, is kept once, and one that is not counts as 0. Whoever wants a field asks for it by `get`.
#[derive(Clone, Copy)]
pub struct Fields<const N: usize> {
    pub have: usize,
    pub values: [u32; N],
    pub after: usize,
}

impl<const N: usize> Fields<N> {
    // Field k, if it is there.
    pub fn get(&self, k: usize) -> Option<u32>
        requires { k < N }
        ensures { result ≡ then_some (ltb k self.now.have) (get_or self.now.values k 0) }
    {
        (k < self.have).then_some(self.values[k])
    }
}

// The field of `width` bits at bit `at`; bits past the end count as 0.
fn padded(net: &[u8], at: usize, width: usize) -> u32
    requires { (at ≤ 1000000) × (1 ≤ width) × (width ≤ 32) }
    ensures { result ≡ field net.now at width }
{
    if reader::there(net, at, width) {
        return reader::field(net, at, width);
    }
    let end = 8 * net.len();
    if end <= at {
        return 0;
    }
    let left = end - at;
    reader::field(net, at, left) << (width - left)
}

// How many of four fields, which end so many bits after `at`, are there. Four numbers and no list: each call writes them out, and each has its own test and its own law.
fn whole(net: &[u8], at: usize, first: usize, second: usize, third: usize, fourth: usize) -> usize
    requires { (at ≤ 1000000) × (first ≤ second) × (second ≤ third) × (third ≤ fourth) × (fourth ≤ 32) }
    ensures { Whole (8 * length net.now) at first second third fourth result }
{
    if reader::there(net, at, fourth) {
        return 4;
    }
    if reader::there(net, at, third) {
        return 3;
    }
    if reader::there(net, at, second) {
        return 2;
    }
    if reader::there(net, at, first) {
        return 1;
    }
    0
}

// The head of a file: edition 8, places 7, legs 10.
fn top_in_file(net: &[u8]) -> Fields<3>
    ensures { TopFields (file_of net.now) result }
{
    let x = padded(net, 0, 25);
    Fields {
        have: whole(net, 0, 8, 15, 25, 25),
        values: [x / 0x2_0000, x / 0x400 % 0x80, x % 0x400],
        after: 25,
    }
}

// The same as `load`, where fewer than eight bytes are left: a function of its own and not inlined, so that `load` is small and is inlined. Three ends, here and there:
// see `whole`.
#[inline(never)]
fn load_near_end(net: &[u8], at: usize, first: usize, second: usize, third: usize) -> (u32, usize)
    requires { (at ≤ 1000000) × (first ≤ second) × (second ≤ third) × (third ≤ 28) }
    ensures { (result.0 ≡ field net.now at 28) × Whole (8 * length net.now) at first second third 28 result.1 }
{
    (
        padded(net, at, 28),
        whole(net, at, first, second, third, 28),
    )
}

// The 28 bits of a leg's head or of a band, and how many of their fields are there, which end so many bits after `at`. One load, but near
// the end of the file.
fn load(net: &[u8], at: usize, first: usize, second: usize, third: usize) -> (u32, usize)
    requires { (at ≤ 1000000) × (first ≤ second) × (second ≤ third) × (third ≤ 28) }
    ensures { (result.0 ≡ field net.now at 28) × Whole (8 * length net.now) at first second third 28 result.1 }
{
    if at / 8 + 8 <= net.len() {
        return (reader::field(net, at, 28), 4);
    }
    load_near_end(net, at, first, second, third)
}

// The fields in the 28 bits of a leg's head: from 6, to 6, driving time 12, bands 4.
pub fn head_parts(x: u32) -> [u32; 4]
    ensures { Parts x 28 head_widths result }
{
    [
        x / 0x40_0000 % 0x40,
        x / 0x1_0000 % 0x40,
        x / 0x10 % 0x1000,
        x % 0x10,
    ]
}

// The fields in the 28 bits of a band: start 12, toll 16.
pub fn band_parts(x: u32) -> [u32; 2]
    ensures { Parts x 28 band_widths result }
{
    [x / 0x1_0000 % 0x1000, x % 0x1_0000]
}

// The head of a leg.
fn head_in_file(net: &[u8], at: usize) -> Fields<4>
    requires { at ≤ 1000000 }
    ensures { HeadFields (file_of net.now) at result }
{
    let (x, have) = load(net, at, 6, 12, 24);
    Fields {
        have,
        values: head_parts(x),
        after: at + 28,
    }
}

// A band.
fn band_in_file(net: &[u8], at: usize) -> Fields<2>
    requires { at ≤ 1000000 }
    ensures { BandFields (file_of net.now) at result }
{
    let (x, have) = load(net, at, 12, 28, 28);
    Fields {
        have,
        values: band_parts(x),
        after: at + 28,
    }
}

// The number at a place of a list, 0 past its end.
fn number(list: &[u32], at: usize) -> u32
    ensures { result ≡ get_or list.now at 0 }
{
    list.get(at).copied().unwrap_or(0)
}

// How many numbers of a list are left from a place on.
fn left(list: &[u32], at: usize) -> usize
    ensures { result ≡ length list.now - at }
{
    list.len().saturating_sub(at)
}

// The next N numbers of a list.
fn in_list<const N: usize>(list: &[u32], at: usize) -> Fields<N>
    requires { (at ≤ 1000000) × (N ≤ 4) }
    ensures { Listed list.now at N result }
{
    let mut values = [0; N];
    for (k, value) in values.iter_mut().enumerate() {
        *value = number(list, at + k);
    }
    Fields {
        have: left(list, at),
        values,
        after: at + N,
    }
}

// What the fields of a network are taken from.
pub trait Origin {
    // The same fields one by one, as the definitions read them.
    ghost source: { Self → Source };

    // The head of a network: edition, places, legs.
    fn top(&self) -> Fields<3>
        ensures { TopFields (source self.now) result };

    // The head of a leg: from, to, driving time, bands.
    fn head(&self, at: usize) -> Fields<4>
        requires { at ≤ 1000000 }
        ensures { HeadFields (source self.now) at result };

    // A band: start, toll.
    fn band(&self, at: usize) -> Fields<2>
        requires { at ≤ 1000000 }
        ensures { BandFields (source self.now) at result };

    // Does the source end here: nothing but zero fill bits in a file, nothing at all in a list?
    fn ends(&self, at: usize) -> bool
        requires { at ≤ 1000000 }
        ensures { result ≡ (source self.now).ends at };

    // A field takes the reading at most its width further on.
    ghost near: { (s : Self) (width at : ℕ) → 1 ≤ width → (source s).after width at ≤ at + width };
}

// The bytes of a network file.
#[derive(Clone, Copy)]
pub struct File<'a>(pub &'a [u8]);

// A list of numbers, one for each field.
#[derive(Clone, Copy)]
pub struct Numbers<'a>(pub &'a [u32]);

impl<'a> Origin for File<'a> {
    ghost source = { λ f. file_of f.0.now };

    ghost near = { λ f width at some. le_refl (at + width) };

    fn top(&self) -> Fields<3> {
        top_in_file(self.0)
    }

    fn head(&self, at: usize) -> Fields<4> {
        head_in_file(self.0, at)
    }

    fn band(&self, at: usize) -> Fields<2> {
        band_in_file(self.0, at)
    }

    fn ends(&self, at: usize) -> bool {
        reader::ends(self.0, at)
    }
}

impl<'a> Origin for Numbers<'a> {
    ghost source = { λ n. list_of n.0.now };

    ghost near = { λ n width at some. add-le-add (le_refl at) some };

    fn top(&self) -> Fields<3> {
        in_list::<3>(self.0, 0)
    }

    fn head(&self, at: usize) -> Fields<4> {
        in_list::<4>(self.0, at)
    }

    fn band(&self, at: usize) -> Fields<2> {
        in_list::<2>(self.0, at)
    }

    fn ends(&self, at: usize) -> bool {
        at == self.0.len()
    }
}
