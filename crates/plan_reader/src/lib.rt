// A plan file, judged and read in place.
#![tactic(auto)]

ghost use Rattle.std.specs.Prelude.{◌≡◌, ◌+◌, ◌*◌, ◌≤◌, length};
ghost use Rattle.plan_file.specs.PlanFile.{verdict_of, query_of};
ghost use Rattle.plan_reader.specs.InPlace.{query_at, ride_at, file_at};
ghost use Rattle.plan_reader.specs.SoundPlan.{Told};

mod sound_plan;

use leg::{Cents, Minute};
use plan_file::{Query, Verdict};
pub use sound_plan::SoundPlan;

// The query that stands from a bit on.
pub fn query_at(bytes: &[u8], bit: usize) -> Query
    requires { (bit ≤ 1000000) × (bit + 36 ≤ 8 * length bytes.now) }
    ensures { query_of result ≡ query_at bytes.now bit }
{
    Query {
        start: reader::field(bytes, bit, 6),
        end: reader::field(bytes, bit + 6, 6),
        earliest: Minute(reader::field(bytes, bit + 12, 12)),
        latest: Minute(reader::field(bytes, bit + 24, 12)),
    }
}

// Ride k of a plan file, counted from the first: its leg, and when that is left for.
pub fn ride_at(plan: &[u8], k: usize) -> (u32, Minute)
    requires { (k ≤ 4096) × (89 + 21 * (k + 1) ≤ 8 * length plan.now) }
    ensures { (result.0 ≡ (ride_at plan.now k).leg) × (result.1.0 ≡ (ride_at plan.now k).leave) }
{
    let (leg, departure) = reader::pair(plan, 89 + 21 * k, 9, 12);
    (leg, Minute(departure))
}

// The verdict of a plan file that has one: its bit is the number.
fn verdict(plan: &[u8]) -> Verdict
    requires { 12 ≤ length plan.now }
    ensures { verdict_of result ≡ (file_at plan.now).verdict }
{
    if reader::field(plan, 8, 1) == 0 {
        Verdict::NoPlan
    } else {
        Verdict::Plan
    }
}

// A whole plan file: edition 1, at most 63 legs, zero fill bits and nothing after them, and "none" with cost 0 and no legs.
#[tactic(auto, using(crate::proofs::Laws::says_head))]
pub fn plan_from<'a>(plan: &'a [u8]) -> Option<SoundPlan<'a>>
    ensures { Told plan.now result }
{
    if plan.len() < 12 {
        return None;
    }
    let edition = reader::field(plan, 0, 8);
    if edition != SoundPlan::EDITION {
        return None;
    }
    let legs = reader::field(plan, 77, 12) as usize;
    if SoundPlan::MOST_LEGS < legs {
        return None;
    }
    if !reader::ends(plan, 89 + 21 * legs) {
        return None;
    }
    let cost = reader::field(plan, 45, 32);
    let stated = match verdict(plan) {
        Verdict::Plan => Some(Cents(cost)),
        Verdict::NoPlan => {
            if cost != 0 || legs != 0 {
                return None;
            }
            None
        }
    };
    Some(SoundPlan {
        bytes: plan,
        stated,
        query: query_at(plan, 9),
        legs,
    })
}
