// What a leg is judged by.
ghost use Rattle.rule_cards.specs.Fit.{Fit};

use card::Card;
use leg::Minute;

// The cards of the leg's two places, the card of its bands, its driving time, and the latest minute.
#[derive(Clone, Copy)]
pub struct LegCards<'a> {
    pub from: Card<'a>,
    pub to: Card<'a>,
    pub bands: Card<'a>,
    pub time: Minute,
    pub latest: Minute,
    // The cards can be looked at, and both numbers are at most the last minute.
    pub ghost fit: { Fit from to bands time.0 latest.0 },
}
