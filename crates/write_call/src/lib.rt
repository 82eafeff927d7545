// The write call of document 01: a list of numbers is judged as a network, and its file put into lent bytes.
#![tactic(auto)]

ghost use Rattle.std.specs.Prelude.{◌≡◌, ℕ, ◌+◌, ◌*◌, ◌≤◌, length};
ghost use Rattle.network.specs.Network.{edition1};
ghost use Rattle.network.specs.Fields.{leg_fields};
ghost use Rattle.write_call.specs.Steps.{Adds, Small, LegsFit, LegsPut, Accepted, FileOf};
ghost use Rattle.write_call.specs.Write.{Writes};

use answer::{Answer, Refusal};
use leg::Leg;
use network::Size;
use source::Numbers;

// One leg, from bit `at` on: its head (from 6, to 6, driving time 12, bands 4), then its bands (start 12, toll 16). One put for each. No writer
// that holds its bit: a struct that lends the bytes would say in each contract that it lends the same ones afterwards.
fn put_leg(out: &mut [u8], at: usize, leg: Leg)
    requires { Small leg × (at ≤ 900000) × (at + 28 + 28 * leg.count ≤ 8 * length out.old) }
    ensures { Adds out.old out.new at (leg_fields edition1 leg) }
{
    bits::put(
        out,
        at,
        28,
        leg.from * 0x40_0000 + leg.to * 0x1_0000 + leg.time.0 * 0x10 + leg.count as u32,
    );
    let bands = at + 28;
    for (k, band) in leg.bands[..leg.count].iter().enumerate() {
        bits::put(
            out,
            bands + 28 * k,
            28,
            band.start.0 * 0x1_0000 + band.toll.0,
        );
    }
}

// The legs of a list that was judged, behind the head of the network.
fn put_legs(list: &[u32], out: &mut [u8], places: u32, legs: usize)
    requires { LegsFit list.now places legs (length out.old) }
    ensures { LegsPut list.now places legs out.old out.new }
{
    let mut place = 3;
    let mut at = 25;
    for k in 0..legs {
        let Ok((leg, after)) = network::leg_from(&Numbers(list), place, places) else {
            unreachable!()
        };
        put_leg(out, at, leg);
        at += 28 + 28 * leg.count;
        place = after;
    }
}

// The file of a list that was judged, into just as many bytes as it has.
fn put_file(list: &[u32], out: &mut [u8], size: Size)
    requires { Accepted list.now size (length out.old) }
    ensures { FileOf list.now out.new }
{
    let places = size.places;
    let legs = size.legs;
    bits::clear(out);
    bits::put(out, 0, 25, 0x2_0000 + places * 0x400 + legs as u32);
    put_legs(list, out, places, legs);
}

// The write call: the file of the network that the list stands for, at the front of the output.
pub fn write(list: &[u32], out: &mut [u8]) -> Answer
    ensures { Writes list.now out.old out.new result }
{
    let size = network::network_from(&Numbers(list))?;
    let bytes = (25 + 28 * size.legs + 28 * size.bands).div_ceil(8);
    if out.len() < bytes {
        return Err(Refusal::Room);
    }
    put_file(list, &mut out[..bytes], size);
    Ok(bytes as u32)
}
