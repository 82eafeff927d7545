// What a network file or a list of numbers stands for: judged field by field, in document 01's order.
#![tactic(auto)]

ghost use Rattle.std.specs.Prelude.{◌≡◌, ◌≤◌};
ghost use Rattle.leg.specs.Ranges.{last_minute};
ghost use Rattle.network.specs.Network.{edition1, follows, band, bands, bare, head, leg, top, body, network};
ghost use Rattle.network.specs.Answers.{given, network_found};
ghost use Rattle.network.specs.SoundFile.{Told};

mod in_file;
mod sound_file;

use answer::Refusal;
pub use in_file::LegInFile;
use leg::{Band, Cents, Leg, Minute};
pub use sound_file::SoundFile;
use source::{File, Origin};

// What a judging comes to: what was found and the place after it, or why it is refused.
pub type Found<T> = Result<(T, usize), Refusal>;

// The head of a leg: everything but its bands, and how many those are.
#[derive(Clone, Copy)]
pub struct Head {
    pub from: u32,
    pub to: u32,
    pub time: Minute,
    pub count: usize,
}

// The head of a network: how many places and how many legs.
#[derive(Clone, Copy)]
pub struct Top {
    pub places: u32,
    pub legs: usize,
}

// How large a network is: its places, its legs, and the bands of all legs together.
#[derive(Clone, Copy)]
pub struct Size {
    pub places: u32,
    pub legs: usize,
    pub bands: usize,
}

impl Top {
    pub const EDITION: u32 = 1;

    pub const MOST_PLACES: u32 = 64;

    pub const MOST_LEGS: u32 = 512;
}

// The first band starts at 0, a later one above the one before. `least` is 0 for the first, and no Option: the definition of a band has it so (`follows`).
fn rises(least: u32, start: u32) -> bool
    ensures { result ≡ follows least start }
{
    if least == 0 {
        start == 0
    } else {
        least <= start
    }
}

// One band: start, then toll. Why a place has a bound: see `source`.
pub fn band_from<S: Origin>(source: &S, at: usize, least: u32) -> Found<Band>
    requires { at ≤ 1000000 }
    ensures { result ≡ given (band least (S.source source.now) at) }
{
    let fields = source.band(at);
    let start = fields.get(0).ok_or(Refusal::Short)?;
    let start = Minute::new(start).ok_or(Refusal::Range)?;
    if !rises(least, start.0) {
        return Err(Refusal::Order);
    }
    let toll = fields.get(1).ok_or(Refusal::Short)?;
    let toll = Cents::new(toll).ok_or(Refusal::Range)?;
    Ok((Band::new(start, toll), fields.after))
}

// The head of a leg: from, to, driving time, number of bands.
pub fn head_from<S: Origin>(source: &S, at: usize, places: u32) -> Found<Head>
    requires { at ≤ 1000000 }
    ensures { result ≡ given (head edition1 places (S.source source.now) at) }
{
    let fields = source.head(at);
    let from = fields.get(0).ok_or(Refusal::Short)?;
    if places <= from {
        return Err(Refusal::Range);
    }
    let to = fields.get(1).ok_or(Refusal::Short)?;
    if places <= to {
        return Err(Refusal::Range);
    }
    let time = fields.get(2).ok_or(Refusal::Short)?;
    let time = Minute::new(time).ok_or(Refusal::Range)?;
    let count = fields.get(3).ok_or(Refusal::Short)?;
    let count = Leg::band_count(count).ok_or(Refusal::Range)?;
    let head = Head {
        from,
        to,
        time,
        count,
    };
    Ok((head, fields.after))
}

// The bands of a leg, after its head. By index: the definition speaks of all eight places, and of a part lent to `iter_mut` each fact would have to be led back to them.
pub fn bands_from<S: Origin>(source: &S, at: usize, head: Head) -> Found<Leg>
    requires { (at ≤ 900000) × (1 ≤ head.count) × (head.count ≤ 8) × (head.time.0 ≤ last_minute) }
    ensures { result ≡ given (bands head.count 0 (bare edition1 head) (S.source source.now) at) }
{
    let count = head.count;
    let mut bands = Band::places();
    let mut place = at;
    let mut least = 0;
    for k in 0..count {
        let (band, after) = band_from(source, place, least)?;
        bands[k] = band;
        place = after;
        least = band.start.0 + 1;
    }
    let leg = Leg::new(head.from, head.to, head.time, bands, count);
    Ok((leg, place))
}

// One leg: its head, then its bands. Inlined: a whole network is judged a third slower where each leg is handed back by a call.
#[inline(always)]
pub fn leg_from<S: Origin>(source: &S, at: usize, places: u32) -> Found<Leg>
    requires { at ≤ 800000 }
    ensures { result ≡ given (leg edition1 places (S.source source.now) at) }
{
    let (head, after) = head_from(source, at, places)?;
    bands_from(source, after, head)
}

// The head of a network: edition, places, number of legs.
pub fn top_from<S: Origin>(source: &S) -> Found<Top>
    ensures { result ≡ given (top (S.source source.now) 0) }
{
    let fields = source.top();
    let edition = fields.get(0).ok_or(Refusal::Short)?;
    if edition != Top::EDITION {
        return Err(Refusal::Edition);
    }
    let places = fields.get(1).ok_or(Refusal::Short)?;
    if places < 1 || Top::MOST_PLACES < places {
        return Err(Refusal::Range);
    }
    let legs = fields.get(2).ok_or(Refusal::Short)?;
    if Top::MOST_LEGS < legs {
        return Err(Refusal::Range);
    }
    let top = Top {
        places,
        legs: legs as usize,
    };
    Ok((top, fields.after))
}

// The legs of a network, and nothing after them.
pub fn body_from<S: Origin>(source: &S, at: usize, top: Top) -> Result<Size, Refusal>
    requires { (at ≤ 1000) × (top.legs ≤ 512) }
    ensures { result ≡ network_found (body edition1 top (S.source source.now) at) }
{
    let places = top.places;
    let legs = top.legs;
    let mut place = at;
    let mut bands = 0;
    for k in 0..legs {
        let (leg, after) = leg_from(source, place, places)?;
        bands += leg.count;
        place = after;
    }
    if source.ends(place) {
        Ok(Size {
            places,
            legs,
            bands,
        })
    } else {
        Err(Refusal::Tail)
    }
}

// A whole network: what a file or a list of numbers stands for, and how large it is.
pub fn network_from<S: Origin>(source: &S) -> Result<Size, Refusal>
    ensures { result ≡ network_found (network edition1 (S.source source.now) 0) }
{
    let (top, after) = top_from(source)?;
    body_from(source, after, top)
}

// A network file, judged whole.
pub fn judge<'a>(net: &'a [u8]) -> Result<SoundFile<'a>, Refusal>
    ensures { Told net.now result }
{
    let size = network_from(&File(net))?;
    Ok(SoundFile { net, size })
}
