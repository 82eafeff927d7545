// The gate: a plan and a sheet that anybody may have written are judged against a network.
#![tactic(auto)]

ghost use Rattle.std.specs.Prelude.{◌≡◌, ◌≤◌, ◌<◌};
ghost use Rattle.plan_file.specs.PlanFile.{query_of};
ghost use Rattle.leg.specs.Price.{price_of};
ghost use Rattle.plan_reader.specs.InPlace.{ride_at, file_at};
ghost use Rattle.std.proofs.Math.Option.{some};
ghost use Rattle.plan.specs.Sheet.{value};
ghost use Rattle.rule_b.specs.Rule.{Is};
ghost use Rattle.rule_b.specs.Cursor.{steps_of};
ghost use Rattle.chart.specs.Net.{net_in, theory_in};
ghost use Rattle.gate.specs.Gate.{Holds, OfSheet, OfPlan, OfFiles, GateSays};
ghost use Rattle.gate.specs.Parts.{sheet_at, RodeTo, Ridden, Arrived, Asked, Fits, RuleOf, RulesOf, Ruled};

mod judging;

use answer::Refusal;
use card::OwnedCard;
use chart::Tariff;
use judging::Judging;
use leg::{Cents, Minute};
use network::SoundFile;
use plan_file::Query;
use plan_reader::SoundPlan;
use rule_cards::LaidSheet;
use sheet_file::{SheetPlace, SoundSheet};

// A sum of cents, which 32 bits might not hold.
#[derive(Clone, Copy, PartialEq, Eq)]
pub struct Total(pub u64);

impl From<Cents> for Total {
    ghost from_gives = { λ cents total. total.0 ≡ cents.0 };

    fn from(cents: Cents) -> Total {
        Total(u64::from(cents.0))
    }
}

// Where a plan stands after some of its rides, when, and at what cost.
#[derive(Clone, Copy)]
pub struct State {
    pub place: u32,
    pub time: Minute,
    pub cost: Total,
}

// One ride of a plan further, if it can be boarded. Tariff and plan stay two values: a struct of both would be made for this, `ridden` and `plan_holds` alone.
fn ride(tariff: &Tariff, plan: &SoundPlan, k: usize, state: State) -> Option<State>
    requires { (k < plan.now.legs) × (state.cost.0 ≤ 1000000000) }
    ensures { RodeTo (theory_in tariff.now.net.now) (ride_at plan.now.bytes.now k) state result }
{
    let (number, departure) = plan.ride(k);
    let number = number as usize;
    if tariff.size.legs <= number {
        return None;
    }
    let leg = tariff.leg(number);
    if leg.from != state.place {
        return None;
    }
    if departure < state.time {
        return None;
    }
    let toll = leg.toll_at(departure);
    Some(State {
        place: leg.to,
        time: Minute(departure.0 + leg.time.0),
        cost: Total(state.cost.0 + u64::from(toll.0)),
    })
}

// Where the rides of a plan lead, if each can be boarded.
fn ridden(tariff: &Tariff, plan: &SoundPlan) -> Option<State>
    ensures { Ridden (theory_in tariff.now.net.now) (query_of plan.now.query) plan.now.bytes.now plan.now.legs result }
{
    let mut state = State {
        place: plan.query.start,
        time: plan.query.earliest,
        cost: Total(0),
    };
    for k in 0..plan.legs {
        state = ride(tariff, plan, k, state)?;
    }
    Some(state)
}

// Does it end at the end, in time, at the cost that the plan states?
fn arrived(state: State, query: Query, stated: Cents) -> bool
    ensures { Is result (Arrived (query_of query) stated.0 state) }
{
    state.place == query.end && state.time <= query.latest && state.cost == Total::from(stated)
}

// Is the plan feasible, at the cost that it states? "None" states nothing. A `match` and no `is_some_and`: tried, and the proof did not close, since what a ride that cannot
// be boarded says is told by the arm.
fn plan_holds(tariff: &Tariff, plan: &SoundPlan) -> bool
    ensures { Is result (Holds (theory_in tariff.now.net.now) (file_at plan.now.bytes.now)) }
{
    let Some(stated) = plan.stated else {
        return true;
    };
    match ridden(tariff, plan) {
        Some(state) => arrived(state, plan.query, stated),
        None => false,
    }
}

// Rule (a): does the place have the value 0 at earliest? (That this minute comes, here and in `tight`: see `leg::Minute`.)
fn starts(place: SheetPlace<'_>) -> bool
    requires { place.window.earliest.0 < 4096 }
    ensures { Is result (value (steps_of place.entry) place.entry.window.earliest.0 ≡ some 0) }
{
    rule_b::value_at(place, place.window.earliest) == Some(Cents(0))
}

// Both rules. The cards lie here, in arrays of a fixed size: no heap.
fn obeys<'a>(tariff: &'a Tariff<'a>, sheet: &'a SoundSheet<'a>, start: usize) -> bool
    requires { Fits tariff.now sheet.now × (start < tariff.now.size.places) × (sheet.now.window.earliest.0 ≤ 2879) }
    ensures { Is result (Ruled tariff.now.net.now sheet.now tariff.now.size.legs start) }
{
    if !starts(sheet.place(start)) {
        return false;
    }
    let mut cards = [OwnedCard::<16>::blank(); 64];
    rule_cards::lay(sheet.sheet, &sheet.index, sheet.places, &mut cards);
    let laid = LaidSheet {
        sheet,
        cards: &cards,
    };
    Judging { tariff, laid }.legs_obey()
}

// Is the place's value at latest the stated cost, or is there none for "none"?
fn tight(place: SheetPlace<'_>, stated: Option<Cents>) -> bool
    requires { place.window.latest.0 < 4096 }
    ensures { Is result (value (steps_of place.entry) place.entry.window.latest.0 ≡ price_of stated) }
{
    rule_b::value_at(place, place.window.latest) == stated
}

// The sheet, after the plan.
fn judge_sheet(tariff: &Tariff, sheet: &[u8], plan: &SoundPlan) -> Result<(), Refusal>
    requires { Asked tariff.now.net.now (query_of plan.now.query) }
    ensures { OfSheet result (theory_in tariff.now.net.now) (query_of plan.now.query) (price_of plan.now.stated) (sheet_at tariff.now.net.now sheet.now (query_of plan.now.query)) }
{
    let query = plan.query;
    let judged = sheet_file::sheet_from(sheet, tariff.size.places, query.window()).ok_or(
        Refusal::SheetFile,
    )?;
    if !obeys(tariff, &judged, query.start as usize) {
        return Err(Refusal::Rules);
    }
    if !tight(judged.place(query.end as usize), plan.stated) {
        return Err(Refusal::Loose);
    }
    Ok(())
}

// The query and the plan, then the sheet. A query's two tests stand in `tabled` too, where a third follows them: one function for both, with its contract, would be no shorter.
fn judge_plan(file: SoundFile<'_>, sheet: &[u8], plan: &SoundPlan) -> Result<(), Refusal>
    ensures { OfPlan result (net_in file.entry.net.now) (file_at plan.now.bytes.now) sheet.now }
{
    let query = plan.query;
    if !query.known(file.size.places) {
        return Err(Refusal::Query);
    }
    if query.latest < query.earliest {
        return Err(Refusal::Window);
    }
    let tariff = Tariff::of(file);
    if !plan_holds(&tariff, plan) {
        return Err(Refusal::Plan);
    }
    judge_sheet(&tariff, sheet, plan)
}

// The plan file, after the network.
fn judge_files(file: SoundFile<'_>, plan: &[u8], sheet: &[u8]) -> Result<(), Refusal>
    ensures { OfFiles result (net_in file.entry.net.now) plan.now sheet.now }
{
    let judged = plan_reader::plan_from(plan).ok_or(Refusal::PlanFile)?;
    judge_plan(file, sheet, &judged)
}

// The network, then the other files.
fn judge(net: &[u8], plan: &[u8], sheet: &[u8]) -> Result<(), Refusal>
    ensures { GateSays net.now plan.now sheet.now result }
{
    let file = network::judge(net)?;
    judge_files(file, plan, sheet)
}

// The gate: is the plan feasible at the cost that it states, and does the sheet prove that no plan costs less? Nothing is written. Two functions with one
// promise: the edits `always_accepts` and `always_refuses` put another body in place of the call.
pub fn gate(net: &[u8], plan: &[u8], sheet: &[u8]) -> Result<(), Refusal>
    ensures { GateSays net.now plan.now sheet.now result }
{
    judge(net, plan, sheet)
}
