// The quantities of document 01 (a minute, cents) and a leg with its bands: what each may hold, and a leg's toll.
#![tactic(auto)]

ghost use Rattle.std.specs.Prelude.{◌≡◌, ◌+◌, ◌-◌, ◌≤◌};
ghost use Rattle.leg.specs.Ranges.{last_minute, most_cents, most_bands, minute, minute_of, cents_of, count_of, band_of, no_band, no_bands, leg_of};
ghost use Rattle.leg.specs.Toll.{toll_at};

// A minute of the day or a driving time in minutes: never to be added to cents.
#[derive(Clone, Copy, PartialEq, Eq, PartialOrd, Ord)]
pub struct Minute(pub u32);

// Cents of toll.
#[derive(Clone, Copy, PartialEq, Eq, PartialOrd, Ord)]
pub struct Cents(pub u32);

// The minutes from earliest to latest, both counted. That it is in order and within the clock is asked where it matters and is no ghost field: a query that was not
// tested yet has a window too.
#[derive(Clone, Copy)]
pub struct Window {
    pub earliest: Minute,
    pub latest: Minute,
}

// From its start up to, but not including, the next band's start a leg costs this toll.
#[derive(Clone, Copy)]
pub struct Band {
    pub start: Minute,
    pub toll: Cents,
}

// A leg with its bands: the first `count` of the eight are the leg's, the others hold zeros. An array and a count: fixed memory, as
// document 01 asks for it.
// That the count is at most eight is asked where it matters and is no ghost field: `with_band`, by which the definition of a network goes, makes legs of any count.
#[derive(Clone, Copy)]
pub struct Leg {
    pub from: u32,
    pub to: u32,
    pub time: Minute,
    pub bands: [Band; 8],
    pub count: usize,
}

impl Minute {
    // A number of 13 bits, so that no field holds it: a minute that never comes. No Option: a slot that is not taken and a cursor with nothing left compare as later than
    // every minute; an Option would be taken apart at each. That a minute comes (it is below this) is asked where it goes into a field or a card, and is no type: each
    // call would have to make one first. Nor is it a type that a minute is at most the last one: this one and the clock's end are minutes too.
    pub const NEVER: u32 = 4096;

    pub const LAST: u32 = 2879;

    // How many minutes there are, 0 and the last among them.
    pub const COUNT: u32 = 2880;

    // The minute n, if it is one. This and `Cents::new` are one expression each: one constructor for both would be over a trait with the limit and the making, and be
    // longer than the two.
    pub fn new(n: u32) -> Option<Minute>
        ensures { result ≡ minute_of n }
    {
        (n <= Minute::LAST).then_some(Minute(n))
    }
}

impl Cents {
    pub const MOST: u32 = 65535;

    // A toll of n cents, if it is in range.
    pub fn new(n: u32) -> Option<Cents>
        ensures { result ≡ cents_of n }
    {
        (n <= Cents::MOST).then_some(Cents(n))
    }
}

impl Window {
    // How many minutes it has: the columns of a minute table.
    pub fn columns(self) -> u32
        requires { (self.earliest.0 ≤ self.latest.0) × (self.latest.0 ≤ last_minute) }
        ensures { (result ≡ self.latest.0 - self.earliest.0 + 1) × (result ≤ 2880) }
    {
        self.latest.0 + 1 - self.earliest.0
    }
}

impl Band {
    // A band from a minute on, at a toll that is in range.
    pub fn new(start: Minute, toll: Cents) -> Band
        requires { (start.0 ≤ last_minute) × (toll.0 ≤ most_cents) }
        ensures { result ≡ band_of start.0 toll.0 }
    {
        Band { start, toll }
    }

    // What stands where a leg has no band.
    pub fn none() -> Band
        ensures { result ≡ no_band }
    {
        Band::new(Minute(0), Cents(0))
    }

    // Eight places for bands, none of them taken.
    pub fn places() -> [Band; 8]
        ensures { result ≡ no_bands 8 }
    {
        [Band::none(); 8]
    }
}

impl Leg {
    pub const FEWEST_BANDS: u32 = 1;

    pub const MOST_BANDS: u32 = 8;

    // n bands, if a leg may have as many.
    pub fn band_count(n: u32) -> Option<usize>
        ensures { result ≡ count_of n }
    {
        (Leg::FEWEST_BANDS..=Leg::MOST_BANDS)
            .contains(&n)
            .then_some(n as usize)
    }

    // A leg of 1 to 8 bands, with a driving time that is in range.
    pub fn new(from: u32, to: u32, time: Minute, bands: [Band; 8], count: usize) -> Leg
        requires { (time.0 ≤ last_minute) × (1 ≤ count) × (count ≤ most_bands) }
        ensures { result ≡ leg_of from to time.0 bands count }
    {
        Leg {
            from,
            to,
            time,
            bands,
            count,
        }
    }

    // What stands where there is no leg.
    pub fn none() -> Leg
        ensures { result ≡ leg_of 0 0 0 (no_bands 8) 0 }
    {
        let bands = Band::places();
        Leg {
            from: 0,
            to: 0,
            time: Minute(0),
            bands,
            count: 0,
        }
    }

    // The toll at a minute: that of the last band whose start is not later.
    pub fn toll_at(self, minute: Minute) -> Cents
        requires { self.count ≤ 8 }
        ensures { result.0 ≡ toll_at self minute.0 }
    {
        let mut toll = Cents(0);
        for band in &self.bands[..self.count] {
            if band.start <= minute {
                toll = band.toll;
            }
        }
        toll
    }
}
