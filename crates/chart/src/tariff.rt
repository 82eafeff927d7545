// A sound network file with its size and its chart, kept together: whoever wants a leg by its number takes one of these. The file's fields and no `SoundFile`: each
// clause on a tariff would name the file besides.
ghost use Rattle.std.specs.Prelude.{◌≡◌, ◌<◌, Ok};
ghost use Rattle.network.specs.Network.{of_file};
ghost use Rattle.network.specs.Answers.{network_found};
ghost use Rattle.network.specs.InFile.{Same};
ghost use Rattle.chart.specs.Chart.{Chart};
ghost use Rattle.chart.specs.Net.{leg_in};
ghost use Rattle.chart.specs.Unique.{chart_once};

use leg::Leg;
use network::{LegInFile, Size, SoundFile};

#[derive(Clone, Copy)]
pub struct Tariff<'a> {
    pub net: &'a [u8],
    pub size: Size,
    // The bit of each leg that a network may have: fixed memory, no heap.
    pub chart: [u32; 512],
    // The file is sound, and of this size.
    pub ghost sound: { network_found (of_file net.now) ≡ Ok size },
    // Leg k stands at bit chart[k].
    pub ghost charted: { Chart net.now chart } by { chart_once net.now chart },
}

impl<'a> Tariff<'a> {
    // A file that was judged, with its chart.
    pub fn of(file: SoundFile<'a>) -> Tariff<'a>
        ensures { (result.net ≡ file.entry.net) × (result.size ≡ file.entry.size) }
    {
        let chart = crate::chart(file);
        Tariff {
            net: file.net,
            size: file.size,
            chart,
        }
    }

    // The leg of a number, decoded where it stands.
    pub fn leg(&self, number: usize) -> Leg
        requires { number < self.now.size.legs }
        ensures { result ≡ leg_in self.now.net.now number }
    {
        crate::leg_at(self.net, self.size.places, self.chart[number])
    }

    // The leg of a number, left where it stands.
    pub fn leg_in_file(&self, number: usize) -> LegInFile<'a>
        requires { number < self.now.size.legs }
        ensures { (result.net ≡ self.now.net) × Same result.net.now result.at (leg_in self.now.net.now number) }
    {
        LegInFile {
            net: self.net,
            at: self.chart[number] as usize,
        }
    }
}
