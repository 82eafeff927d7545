// Text in lent bytes, one piece after another: words, and numbers in decimal.
#![tactic(auto)]

ghost use Rattle.std.specs.Prelude.{◌+◌, length};
ghost use Rattle.text.specs.Text.{HasRoom, Writes, decimal_of, item, line};

use itoa::Buffer;

// Lent bytes, and the place up to which they are written. No `Display`: it would write through a formatter of its own, and a page that knows its place is the
// plainer of the two.
#[derive(Drop)]
pub struct Page<'a> {
    pub out: &'a mut [u8],
    pub at: usize,
}

impl<'a> Page<'a> {
    // A word.
    pub fn word(&mut self, bytes: &[u8])
        requires { HasRoom self.old (length bytes.now) }
        ensures { Writes self.old self.new bytes.now }
    {
        let to = self.at + bytes.len();
        self.out[self.at..to].copy_from_slice(bytes);
        self.at = to;
    }

    // A number in decimal.
    fn number(&mut self, value: u32)
        requires { HasRoom self.old 10 }
        ensures { Writes self.old self.new (decimal_of value) }
    {
        let mut digits = Buffer::new();
        self.word(digits.format(value).as_bytes());
    }

    // A word and a number.
    pub fn item(&mut self, name: &[u8], value: u32)
        requires { HasRoom self.old (length name.now + 10) }
        ensures { Writes self.old self.new (item name.now value) }
    {
        self.word(name);
        self.number(value);
    }

    // And a newline.
    pub fn line(&mut self, name: &[u8], value: u32)
        requires { HasRoom self.old (length name.now + 11) }
        ensures { Writes self.old self.new (line name.now value) }
    {
        self.item(name, value);
        self.word(b"\n");
    }
}
