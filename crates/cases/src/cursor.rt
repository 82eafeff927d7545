// A file of stored cases, read from front to back: its parts are taken one after another.

ghost use Rattle.std.specs.Prelude.{◌≤◌, length};

use crate::call::Call;
use terminal::Reply;

// A file and the place at which it is read.
#[derive(Clone, Copy)]
pub struct Cursor<'a> {
    pub file: &'a [u8],
    pub at: usize,
}

// Numbers that stand after their count: how many there are said to be, and the place of the first. A file, a place and a count, and no slice: in a damaged file the
// numbers past its end are 0, and the program `stored` reads on as it did.
#[derive(Clone, Copy)]
pub struct Numbers<'a> {
    pub file: &'a [u8],
    pub first: usize,
    pub count: usize,
}

// A place that is still in the file; 0, the front, for one that is not. No Option, here and in `number_at`: the program `stored` reads a damaged file on from there.
fn within(file: &[u8], at: usize) -> usize
    ensures { (result ≤ length file.now) × (result ≤ 1000000) }
{
    if at <= file.len() && at <= 1000000 {
        at
    } else {
        0
    }
}

// A number of four bytes, high byte first; 0 past the end.
fn number_at(file: &[u8], place: usize) -> u32 {
    let at = within(file, place);
    if file.len() - at < 4 {
        0
    } else {
        reader::field(file, 8 * at, 32)
    }
}

impl<'a> Cursor<'a> {
    // The next number, which stays the next one.
    pub fn count(&self) -> usize {
        number_at(self.file, self.at) as usize
    }

    // The next number.
    pub fn number(&mut self) -> u32 {
        let number = number_at(self.file, self.at);
        self.at = within(self.file, self.at) + 4;
        number
    }

    // A reply: its number and its length.
    pub fn reply(&mut self) -> Reply {
        let number = self.number();
        let length = self.number();
        Reply { number, length }
    }

    // The call of a case, if its byte stands for one.
    pub fn call(&mut self) -> Option<Call> {
        let at = within(self.file, self.at);
        let code = *self.file.get(at)?;
        self.at = at + 1;
        Call::try_from(code).ok()
    }

    // The bytes that stand after their count; none where they are not all there, and no Option: as `within`.
    pub fn bytes(&mut self) -> &'a [u8] {
        let at = within(self.file, self.at);
        let count = self.number() as usize;
        let from = at + 4;
        self.at = from + count;
        self.file.get(from..self.at).unwrap_or(&[])
    }

    // The numbers that stand after their count.
    pub fn numbers(&mut self) -> Numbers<'a> {
        let at = within(self.file, self.at);
        let count = self.number() as usize;
        let first = at + 4;
        self.at = first + 4 * count;
        Numbers {
            file: self.file,
            first,
            count,
        }
    }
}

impl<'a> Numbers<'a> {
    // Number `k` of them. A place past what can be counted is past the end.
    fn get(&self, k: usize) -> u32 {
        number_at(self.file, self.first.saturating_add(k.saturating_mul(4)))
    }

    // Whether a list holds these numbers.
    pub fn same(&self, list: &[u32]) -> bool {
        list.iter()
            .enumerate()
            .all(|(k, &number)| self.get(k) == number)
    }

    // These numbers, into a list.
    pub fn copy_to(&self, list: &mut [u32]) {
        for (k, number) in list.iter_mut().enumerate() {
            *number = self.get(k);
        }
    }
}
