// The rides that a plan file tells, on the tariff whose legs they take, and the lines that they are printed in.
ghost use Rattle.std.specs.Prelude.{◌≡◌, ◌+◌, ◌-◌, ◌*◌, ◌≤◌, ◌<◌};
ghost use Rattle.bits.specs.Field.{field};
ghost use Rattle.chart.specs.Net.{theory_in};
ghost use Rattle.plan.specs.Plan.{arrival};
ghost use Rattle.plan_file.specs.PlanFile.{query_of};
ghost use Rattle.text.specs.Text.{HasRoom, Writes};
ghost use Rattle.report.specs.Report.{leg_text, rides_text, file_text};
ghost use Rattle.report.specs.Rides.{rides_in, Ridden, ridden_once};

use chart::Tariff;
use leg::Minute;
use plan_file::Query;
use text::Page;

#[derive(Clone, Copy)]
pub struct Rides<'a> {
    pub tariff: Tariff<'a>,
    pub plan: &'a [u8],
    pub query: Query,
    // As many rides as the file says chain from the query's start.
    pub ghost ridden: { Ridden tariff.net.now plan.now (query_of query) (field plan.now 77 12) } by { ridden_once tariff.net.now plan.now (query_of query) (field plan.now 77 12) },
}

impl<'a> Rides<'a> {
    // How many rides there are. Count and cost are read at their bits, as in `plan_reader`: one field each, and a function for it would be no shorter.
    fn count(&self) -> usize
        ensures { result ≡ field self.now.plan.now 77 12 }
    {
        reader::field(self.plan, 77, 12) as usize
    }

    // When the first `count` rides have arrived: at earliest where there are none.
    fn arrival_after(&self, count: usize) -> Minute
        requires { count ≤ field self.now.plan.now 77 12 }
        ensures { result.0 ≡ arrival (theory_in self.now.tariff.net.now) (query_of self.now.query) (rides_in self.now.plan.now count) }
    {
        if count == 0 {
            return self.query.earliest;
        }
        let (leg, departure) = plan_reader::ride_at(self.plan, count - 1);
        let ridden = self.tariff.leg(leg as usize);
        Minute(departure.0 + ridden.time.0)
    }

    // The line of ride `k`.
    fn line(&self, k: usize, page: &mut Page)
        requires { (k < field self.now.plan.now 77 12) × HasRoom page.old 48 }
        ensures { Writes page.old page.new
            (leg_text (field self.now.plan.now (89 + 21 * k) 9) (field self.now.plan.now (89 + 21 * k + 9) 12)
            (field self.now.plan.now (89 + 21 * k + 9) 12
            - arrival (theory_in self.now.tariff.net.now) (query_of self.now.query) (rides_in self.now.plan.now k)))
            × (page.new.at ≤ page.old.at + 48) }
    {
        let (leg, departure) = plan_reader::ride_at(self.plan, k);
        let before = self.arrival_after(k);
        let wait = departure.0 - before.0;
        leg_line(page, leg, departure, Minute(wait));
    }

    // The lines of all rides.
    fn lines(&self, page: &mut Page)
        requires { HasRoom page.old (48 * 63) }
        ensures { Writes page.old page.new (rides_text (theory_in self.now.tariff.net.now) (query_of self.now.query)
            (rides_in self.now.plan.now (field self.now.plan.now 77 12))) }
    {
        for k in 0..self.count() {
            self.line(k, page);
        }
    }

    // Answer 0: the cost and the rides stand in the plan file.
    pub fn text(&self, page: &mut Page)
        requires { HasRoom page.old 4096 }
        ensures { Writes page.old page.new (file_text (theory_in self.now.tariff.net.now) (query_of self.now.query) self.now.plan.now) }
    {
        let cost = reader::field(self.plan, 45, 32);
        let arrival = self.arrival_after(self.count());
        crate::answer_line(page, 0); // answered
        page.line(b"cost ", cost);
        page.line(b"arrive ", arrival.0);
        self.lines(page);
    }
}

// `leg L leave D wait W`.
fn leg_line(page: &mut Page, leg: u32, departure: Minute, wait: Minute)
    requires { HasRoom page.old 48 }
    ensures { Writes page.old page.new (leg_text leg departure.0 wait.0)
        × (page.new.at ≤ page.old.at + 48) }
{
    page.item(b"leg ", leg);
    page.item(b" leave ", departure.0);
    page.line(b" wait ", wait.0);
}
