// A sheet that was judged, with the cards of its places, kept together.
ghost use Rattle.std.specs.Prelude.{◌≡◌, ◌<◌, get_or};
ghost use Rattle.rule_cards.specs.Laid.{LaidOut};
ghost use Rattle.rule_cards.specs.Unique.{laid_once};

use crate::Place;
use card::OwnedCard;
use sheet_file::SoundSheet;

// The cards have a fixed size, and no heap: a card for each of 64 places, with 16 slots.
#[derive(Clone, Copy)]
pub struct LaidSheet<'a> {
    pub sheet: &'a SoundSheet<'a>,
    pub cards: &'a [OwnedCard<16>; 64],
    // Each place's steps are on its card, if it has room for them.
    pub ghost laid: { LaidOut sheet.now.sheet.now sheet.now.places sheet.now.index cards.now } by { laid_once sheet.now.sheet.now sheet.now.places sheet.now.index cards.now },
}

impl<'a> LaidSheet<'a> {
    // A place, with its card.
    pub fn place(&self, p: usize) -> Place<'a>
        requires { p < self.now.sheet.now.places }
        ensures { (result.steps.sheet ≡ self.now.sheet.now.sheet) × (result.steps.window ≡ self.now.sheet.now.window) × (result.steps.bit ≡ get_or self.now.sheet.now.index p 0) }
    {
        let steps = self.sheet.place(p);
        let card = self.cards[p].card();
        Place { steps, card }
    }
}
