//! In which order the stages take their turns in memory.
#![tactic(auto)]

ghost use Rattle.std.specs.Prelude.{◌≡◌, ◌∷◌, ◌<◌, ◌/◌, ◌%◌, [], map, true};
ghost use Rattle.std.specs.List.{list_all};
ghost use Rattle.turns.specs.Rounds.{below, descend, has_each_stage, item_at, next_number, order_of, times_of, without_item};

/// How many orders of four stages there are.
const ORDERS: u32 = 24;

/// Where the number of an order stands in a round's number.
const ORDER_AT: u32 = 65_536;

/// Where the number of times stands in a round's number.
const TIMES_AT: u32 = 256;

/// The number behind another: a linear congruence modulo 2^32.
fn number_behind(x: u32) -> u32
    ensures { result ≡ next_number x }
{
    1_664_525_u32.wrapping_mul(x).wrapping_add(1_013_904_223)
}

/// The one of four at a place, and the others.
fn one_of_four(at: u32, stages: (u8, u8, u8, u8)) -> (u8, (u8, u8, u8))
    requires { at < 4 }
    ensures { result.0 ∷ result.1.0 ∷ result.1.1 ∷ result.1.2 ∷ [] ≡ item_at at (stages.0 ∷ stages.1 ∷ stages.2 ∷ stages.3 ∷ []) ∷ without_item at (stages.0 ∷ stages.1 ∷ stages.2 ∷ stages.3 ∷ []) }
{
    let (first, second, third, fourth) = stages;
    match at {
        0 => (first, (second, third, fourth)),
        1 => (second, (first, third, fourth)),
        2 => (third, (first, second, fourth)),
        _ => (fourth, (first, second, third)),
    }
}

/// The one of three at a place, and the others.
fn one_of_three(at: u32, stages: (u8, u8, u8)) -> (u8, (u8, u8))
    requires { at < 3 }
    ensures { result.0 ∷ result.1.0 ∷ result.1.1 ∷ [] ≡ item_at at (stages.0 ∷ stages.1 ∷ stages.2 ∷ []) ∷ without_item at (stages.0 ∷ stages.1 ∷ stages.2 ∷ []) }
{
    let (first, second, third) = stages;
    match at {
        0 => (first, (second, third)),
        1 => (second, (first, third)),
        _ => (third, (first, second)),
    }
}

/// The one of two at a place, and the other.
fn one_of_two(at: u32, stages: (u8, u8)) -> (u8, u8)
    requires { at < 2 }
    ensures { result.0 ∷ result.1 ∷ [] ≡ item_at at (stages.0 ∷ stages.1 ∷ []) ∷ without_item at (stages.0 ∷ stages.1 ∷ []) }
{
    let (first, second) = stages;
    match at {
        0 => (first, second),
        _ => (second, first),
    }
}

/// The order of four stages with this number, 0 to 23, of all orders as they ascend.
fn order_with(number: u32) -> [u8; 4]
    requires { number < 24 }
    ensures { result ≡ order_of number }
{
    let (first, left) = one_of_four(number / 6, (1, 2, 3, 4));
    let (second, left) = one_of_three(number % 6 / 2, left);
    let (third, fourth) = one_of_two(number % 2, left);
    [first, second, third, fourth]
}

/// A round of turns: the number of the next round, the order in which the stages take their turns, and
/// how often each takes one step after the other.
pub fn turns_round(x: u32) -> (u32, [u8; 4], u8)
    ensures number { result.0 ≡ next_number x }
    ensures order { result.1 ≡ order_of (next_number x / 65536 % 24) }
    ensures times { result.2 ≡ times_of (next_number x) }
{
    let y = number_behind(x);
    let order = order_with(y / ORDER_AT % ORDERS);
    let times = (1 + y / TIMES_AT % 4) as u8;
    (y, order, times)
}

/// Each of the 24 orders has each stage once, and they ascend by their numbers: so they are all.
pub fn the_orders_are_all_and_ascend()
    ensures each { list_all has_each_stage (map order_of (below 24)) ≡ true }
    ensures ascend { descend (map order_of (below 24)) ≡ true }
{}
