// A leg where it stands in a network file: its fields are read one by one, and no leg is made of them.
ghost use Rattle.std.specs.Prelude.{◌≡◌, ◌<◌, get_or};
ghost use Rattle.leg.specs.Ranges.{no_band};
ghost use Rattle.network.specs.InFile.{leg_at, LegThere};

use leg::{Cents, Minute};

#[derive(Clone, Copy)]
pub struct LegInFile<'a> {
    pub net: &'a [u8],
    pub at: usize,
    // All of it is there.
    pub ghost there: { LegThere net.now at (leg_at net.now at).count },
}

impl<'a> LegInFile<'a> {
    // The place that it leaves.
    pub fn from(self) -> u32
        ensures { result ≡ (leg_at self.entry.net.now self.entry.at).from }
    {
        reader::field(self.net, self.at, 6)
    }

    // The place that it goes to.
    pub fn to(self) -> u32
        ensures { result ≡ (leg_at self.entry.net.now self.entry.at).to }
    {
        reader::field(self.net, self.at + 6, 6)
    }

    // Its driving time.
    pub fn time(self) -> Minute
        ensures { result ≡ (leg_at self.entry.net.now self.entry.at).time }
    {
        Minute(reader::field(self.net, self.at + 12, 12))
    }

    // How many bands it has.
    pub fn count(self) -> usize
        ensures { result ≡ (leg_at self.entry.net.now self.entry.at).count }
    {
        reader::field(self.net, self.at + 24, 4) as usize
    }

    // Where band k starts.
    pub fn start(self, k: usize) -> Minute
        requires { k < (leg_at self.net.now self.at).count }
        ensures { result ≡ (get_or (leg_at self.entry.net.now self.entry.at).bands k no_band).start }
    {
        Minute(reader::field(self.net, self.at + 28 + 28 * k, 12))
    }

    // The toll of band k.
    pub fn toll(self, k: usize) -> Cents
        requires { k < (leg_at self.net.now self.at).count }
        ensures { result ≡ (get_or (leg_at self.entry.net.now self.entry.at).bands k no_band).toll }
    {
        Cents(reader::field(self.net, self.at + 28 + 28 * k + 12, 16))
    }
}
