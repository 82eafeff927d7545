// Where each leg of a sound network file stands, so that a leg is decoded when it is wanted and nothing is copied.
#![tactic(auto)]

ghost use Rattle.std.specs.Prelude.{◌≡◌, ◌≤◌};
ghost use Rattle.source.specs.Source.{file_of};
ghost use Rattle.network.specs.Network.{edition1, leg};
ghost use Rattle.network.specs.Answers.{leg_or_none};
ghost use Rattle.chart.specs.Chart.{Chart};

mod tariff;

use leg::Leg;
use network::{LegInFile, SoundFile};
use source::File;
pub use tariff::Tariff;

// The bit at which each leg stands: a leg's head has 28 bits, and each band 28. By index: the promise speaks of the whole list, and of a part lent to `iter_mut` each
// fact would have to be led back to it (tried).
pub fn chart(file: SoundFile<'_>) -> [u32; 512]
    ensures { Chart file.entry.net.now result }
{
    let legs = file.size.legs;
    let mut chart = [0u32; 512];
    let mut place = 25;
    for k in 0..legs {
        chart[k] = place as u32;
        let leg = LegInFile {
            net: file.net,
            at: place,
        };
        let bands = leg.count();
        place += 28 + 28 * bands;
    }
    chart
}

// The leg at a bit of the file.
pub fn leg_at(net: &[u8], places: u32, at: u32) -> Leg
    requires { at ≤ 200000 }
    ensures { result ≡ leg_or_none (leg edition1 places (file_of net.now) at) }
{
    // No leg stands there: `leg_or_none`, which the promise names, has one for every bit.
    network::leg_from(&File(net), at as usize, places).map_or(Leg::none(), |(leg, _)| leg)
}
