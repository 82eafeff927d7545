// Rule (b) for one leg by cards: where both its places have few steps, their values are found by counting; else the steps are walked.
#![tactic(auto)]

ghost use Rattle.std.specs.Prelude.{◌+◌, ◌*◌, ◌≤◌, ◌<◌, ◌≡◌, length};
ghost use Rattle.rule_b.specs.Rule.{Is, RuleB};
ghost use Rattle.rule_b.specs.Cursor.{leg_of, steps_of, LegAsked};
ghost use Rattle.card.specs.Card.{Blank};
ghost use Rattle.sheet_file.specs.InPlace.{count_at};
ghost use Rattle.rule_cards.specs.Laid.{Laid, AllBlank, LaidOut, Inside};
ghost use Rattle.card.specs.One.{ShownOn};
ghost use Rattle.rule_cards.specs.Fit.{Slots};
ghost use Rattle.rule_cards.specs.Cards.{Tested, TestedOn, AllTested, LegTested};

mod laid_sheet;
mod leg_cards;
mod place;

use card::{Card, OwnedCard};
pub use laid_sheet::LaidSheet;
use leg::{Cents, Minute};
use leg_cards::LegCards;
use network::LegInFile;
pub use place::Place;

// How many steps a place's card has room for.
const STEPS: usize = 16;

// How many bands a leg's card has room for.
const BANDS: usize = 8;

impl<'a> LegCards<'a> {
    // The rule at a departure that arrives in time, from what the cards of the place and of the bands show there. Inlined, and so the counting is unrolled.
    #[inline(always)]
    fn obeys_at(self, departure: Minute, here: Option<Cents>, toll: Option<Cents>) -> bool
        requires { (departure.0 + self.time.0 ≤ self.latest.0) × ShownOn self.from departure.0 here × ShownOn self.bands departure.0 toll }
        ensures { Tested self.entry departure.0 result }
    {
        let arrival = Minute(departure.0 + self.time.0);
        let toll = toll.unwrap_or(Cents(0));
        let there = self.to.look(arrival);
        rule_b::covered(here, toll, there)
    }

    // The rule at the steps of the place that the leg leaves, up to the last departure that arrives in time. The value at a step is the step's own. A `for` and no `all`, here
    // and below: `all` wants a proof of what its closure asks of each slot, and is longer with it.
    fn steps_obey(self, last: Minute) -> bool
        requires { last.0 + self.time.0 ≡ self.latest.0 }
        ensures { TestedOn self.entry self.entry.from 16 result }
    {
        let steps = self.from.begun(last);
        for slot in &self.from.slots[..steps] {
            let toll = self.bands.look(slot.minute);
            if !self.obeys_at(slot.minute, Some(slot.price), toll) {
                return false;
            }
        }
        true
    }

    // And where the leg's bands start. The toll there is the band's own. The loop of `steps_obey` again: what is shown at a slot, handed over as a closure with its promise,
    // would be longer than the loop.
    fn bands_obey(self, last: Minute) -> bool
        requires { last.0 + self.time.0 ≡ self.latest.0 }
        ensures { TestedOn self.entry self.entry.bands 8 result }
    {
        let bands = self.bands.begun(last);
        for slot in &self.bands.slots[..bands] {
            let here = self.from.look(slot.minute);
            if !self.obeys_at(slot.minute, here, Some(slot.price)) {
                return false;
            }
        }
        true
    }

    // The rule at all of them. No departure arrives in time if the leg takes longer than there is.
    fn obey(self) -> bool
        ensures { AllTested self.entry 16 8 result }
    {
        if self.latest < self.time {
            return true;
        }
        let last = Minute(self.latest.0 - self.time.0);
        self.steps_obey(last) && self.bands_obey(last)
    }
}

// Rule (b) for a leg between two places whose steps are on cards.
fn cards_obey(leg: LegInFile<'_>, from: Card<'_>, to: Card<'_>, latest: Minute) -> bool
    requires { LegAsked (leg_of leg) latest.0 × Slots from 16 × Slots to 16 }
    ensures { LegTested from.entry to.entry 16 (leg_of leg.entry) latest.0 result }
{
    let time = leg.time();
    let mut bands = OwnedCard::<BANDS>::blank();
    bands.fill::<16>(leg.net, leg.at + 28, leg.count());
    let cards = LegCards {
        from,
        to,
        bands: bands.card(),
        time,
        latest,
    };
    cards.obey()
}

// Does the sheet obey rule (b) for a leg, from one of its places to another, up to the end of the window? (What is asked of leg and latest: see `rule_b::leg_obeys`.)
pub fn leg_obeys(leg: LegInFile<'_>, from: Place<'_>, to: Place<'_>) -> bool
    requires { LegAsked (leg_of leg) from.steps.window.latest.0 }
    ensures { Is result (RuleB from.entry.steps.window.latest.0 (leg_of leg.entry) (steps_of from.entry.steps) (steps_of to.entry.steps)) }
{
    if STEPS < from.steps.count().max(to.steps.count()) {
        return rule_b::leg_obeys(leg, from.steps, to.steps);
    }
    cards_obey(leg, from.card, to.card, from.steps.window.latest)
}

// Puts the steps of the place whose count stands at a bit on its card, if it has room for them. A sheet and a bit: see `lay`.
fn lay_place(sheet: &[u8], place: u32, card: &mut OwnedCard<16>)
    requires { (place + 12 + 44 * count_at sheet.now place ≤ 8 * length sheet.now) × Blank card.old.slots 0 16 }
    ensures { Laid sheet.now place card.new.slots }
{
    let steps = reader::field(sheet, place as usize, 12) as usize;
    if STEPS < steps {
        return;
    }
    card.fill::<32>(sheet, place as usize + 12, steps);
}

// The cards of all places. A sheet and its index apart: a judged sheet would ask more than that the steps lie in the file. By index: of a card that was lent out by
// `iter_mut` each fact would have to be led back to all cards.
pub fn lay(sheet: &[u8], index: &[u32; 64], places: u32, cards: &mut [OwnedCard<16>; 64])
    requires { (places ≤ 64) × Inside sheet.now places index.now × AllBlank cards.old }
    ensures { LaidOut sheet.now places index.now cards.new }
{
    for p in 0..places as usize {
        lay_place(sheet, index[p], &mut cards[p]);
    }
}
