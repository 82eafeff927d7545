// What a cell of the minute table holds: 64 × cost + legs, or no plan. A number and no type, since the cells are lent over C.
ghost use Rattle.std.specs.Prelude.{◌≡◌, ◌+◌, ◌*◌, ◌/◌, ◌%◌, ◌<◌};

use leg::Cents;

// Where there is no plan.
pub const NO_PLAN: u32 = 4294967295;

// The cost in a cell.
pub fn cost_of(cell: u32) -> Cents
    ensures { result.0 ≡ cell / 64 }
{
    Cents(cell / 64)
}

// The legs in a cell.
pub fn legs_of(cell: u32) -> u32
    ensures { result ≡ cell % 64 }
{
    cell % 64
}

// What a ride at this toll adds to a cell: 64 for each cent, and 1 for the leg.
pub fn adds(toll: Cents) -> u64
    ensures { (result ≡ 64 * toll.0 + 1) × (result < 1000000000000) }
{
    64 * u64::from(toll.0) + 1
}
