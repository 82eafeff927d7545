// The read call: a network file's fields as a list of numbers, edition first and in file order.
#![tactic(auto)]

ghost use Rattle.std.specs.Prelude.{◌≡◌, ◌+◌, ◌*◌, ◌≤◌, ◌<◌, [], ◌∷◌, length};
ghost use Rattle.std.proofs.lemmas.List.Edits.{sets};
ghost use Rattle.network.specs.Network.{edition1, of_file};
ghost use Rattle.network.specs.Fields.{leg_fields, values};
ghost use Rattle.network.specs.InFile.{leg_at};
ghost use Rattle.read_call.specs.Read.{Reads, listed};

use answer::{Answer, Refusal};
use network::{LegInFile, Size, SoundFile};

// Numbers into the list, from index `at` on: one store each. A copy of two numbers waits in memory for what was just stored: with `copy_from_slice` the read of the largest
// file took 51 µs for 30 (tried).
fn store<const N: usize>(list: &mut [u32], at: usize, numbers: &[u32; N])
    requires { at + N ≤ length list.old }
    ensures { list.new ≡ sets list.old at numbers.now }
{
    for (k, &number) in numbers.iter().enumerate() {
        list[at + k] = number;
    }
}

// The numbers of the leg that stands at a bit, from index `at` on; the number of its bands. A head and a band are read with one load each.
fn list_leg(leg: LegInFile<'_>, list: &mut [u32], at: usize) -> usize
    requires { at + (4 + 2 * (leg_at leg.net.now leg.at).count) ≤ length list.old }
    ensures { (result ≡ (leg_at leg.entry.net.now leg.entry.at).count)
        × (list.new ≡ sets list.old at (values (leg_fields edition1 (leg_at leg.entry.net.now leg.entry.at)))) }
{
    let fields = source::head_parts(reader::field(leg.net, leg.at, 28));
    store(list, at, &fields);
    let count = fields[3] as usize;
    for k in 0..count {
        let [start, toll] = source::band_parts(reader::field(leg.net, leg.at + 28 + 28 * k, 28));
        store(list, at + 4 + 2 * k, &[start, toll]);
    }
    count
}

// The numbers of a whole network.
fn list_network(file: SoundFile<'_>, list: &mut [u32])
    requires { 3 + 4 * file.size.legs + 2 * file.size.bands ≤ length list.old }
    ensures { list.new ≡ listed (of_file file.entry.net.now) list.old }
{
    let Size { places, legs, .. } = file.size;
    store(list, 0, &[1, places, legs as u32]);
    let mut at = 3;
    let mut place = 25;
    for k in 0..legs {
        let leg = LegInFile {
            net: file.net,
            at: place,
        };
        let bands = list_leg(leg, list, at);
        at += 4 + 2 * bands;
        place += 28 + 28 * bands;
    }
}

// Judges the whole file, then its room, and only then writes.
pub fn read(net: &[u8], list: &mut [u32]) -> Answer
    ensures { Reads net.now list.old list.new result }
{
    let file = network::judge(net)?;
    let count = 3 + 4 * file.size.legs + 2 * file.size.bands;
    let room = list.len();
    if room < count {
        return Err(Refusal::Room);
    }
    list_network(file, list);
    Ok(count as u32)
}
