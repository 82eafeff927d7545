// A place of a judged sheet, with its card.
ghost use Rattle.rule_cards.specs.Laid.{OnCard};
ghost use Rattle.rule_cards.specs.Unique.{on_card_once};

use card::Card;
use sheet_file::SheetPlace;

#[derive(Clone, Copy)]
pub struct Place<'a> {
    pub steps: SheetPlace<'a>,
    pub card: Card<'a>,
    // The steps are on the card, if it has room for them.
    pub ghost laid: { OnCard steps.sheet.now steps.bit card } by { on_card_once steps.sheet.now steps.bit card },
}
