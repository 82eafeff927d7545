// Rule (b), leg by leg: a tariff, and a sheet that was judged for it with the cards of its places.
ghost use Rattle.std.specs.Prelude.{◌<◌};
ghost use Rattle.rule_b.specs.Rule.{Is};
ghost use Rattle.gate.specs.Parts.{Fits, RuleOf, RulesOf};

use chart::Tariff;
use rule_cards::LaidSheet;

#[derive(Clone, Copy)]
pub struct Judging<'a> {
    pub tariff: &'a Tariff<'a>,
    pub laid: LaidSheet<'a>,
    // The sheet has the tariff's places, and its window ends within the clock.
    pub ghost fits: { Fits tariff.now laid.sheet.now },
}

impl<'a> Judging<'a> {
    // The rule for leg k, read where it stands, with the steps of the places on cards.
    fn leg_obeys(&self, k: usize) -> bool
        requires { k < self.now.tariff.now.size.legs }
        ensures { Is result (RuleOf self.now.tariff.now.net.now self.now.laid.sheet.now k) }
    {
        let leg = self.tariff.leg_in_file(k);
        let from = self.laid.place(leg.from() as usize);
        let to = self.laid.place(leg.to() as usize);
        rule_cards::leg_obeys(leg, from, to)
    }

    // And for every leg.
    pub fn legs_obey(&self) -> bool
        ensures { Is result (RulesOf self.now.tariff.now.net.now self.now.laid.sheet.now self.now.tariff.now.size.legs) }
    {
        (0..self.tariff.size.legs).all(|k| self.leg_obeys(k))
    }
}
