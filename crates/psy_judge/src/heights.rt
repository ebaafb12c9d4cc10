//! The greatest two heights of places, and how they are taken on along the ways from there.
//!
//! A height above the number of instructions means that there is no greatest one. In any code each pass but the last raises a place, and none
//! rises more often than by twice that number.

ghost use Rattle.std.specs.Prelude.{◌≡◌, ◌<◌, ◌^◌, ◌⊎◌, ℕ, length, Some};
ghost use Rattle.std.specs.List.{Contains};
ghost use Rattle.psy_flow.specs.Owners.{Owner};
ghost use Rattle.psy_judge.specs.Highest.{
  AreFound,
  AreSmall,
  AreStarts,
  IsClosedAt,
  IsCourse,
  IsEmpty,
  IsSmall,
  and_height,
  begun_at,
  covers,
  followed,
  followed_some,
  follows,
  follows_some,
  is_endless,
  joined,
  joined_all,
  moved,
  rises,
  taken_to,
  top_at,
};
ghost use Rattle.psy_judge.specs.declared.heights.Top.TheVariants as top;

use crate::steps::{Step, steps_at};
use psy_base::Items;
use psy_code::Code;

/// The greatest two heights of a place.
#[derive(Clone, Copy, Debug)]
pub enum Top {
    /// No way comes there.
    Nothing,
    /// All ways come with one height.
    One(u64),
    /// The greatest height, and the next one.
    Two(u64, u64),
    /// There is no greatest height.
    Endless,
}

// ---- tops

fn covers(top: Top, height: u64) -> bool
    ensures { result ≡ covers top height }
{
    match top {
        Top::Nothing => false,
        Top::One(a) => height == a,
        Top::Two(a, b) => height == a || height <= b,
        Top::Endless => true,
    }
}

fn and_height(top: Top, height: u64) -> Top
    ensures { result ≡ and_height top height }
{
    match top {
        Top::Nothing => Top::One(height),
        Top::One(a) | Top::Two(a, _) => {
            if a < height {
                Top::Two(height, a)
            } else {
                Top::Two(a, height)
            }
        }
        Top::Endless => Top::Endless,
    }
}

fn joined(most: u64, top: Top, height: u64) -> Top
    ensures { result ≡ joined most top height }
{
    if covers(top, height) {
        return top;
    }
    if most < height {
        return Top::Endless;
    }
    and_height(top, height)
}

fn joined_all(most: u64, top: Top, more: Top) -> Top
    ensures { result ≡ joined_all most top more }
{
    match more {
        Top::Nothing => top,
        Top::One(a) => joined(most, top, a),
        Top::Two(a, b) => joined(most, joined(most, top, a), b),
        Top::Endless => Top::Endless,
    }
}

fn is_endless(top: Top) -> bool
    ensures { result ≡ is_endless top }
{
    match top {
        Top::Endless => true,
        _ => false,
    }
}

fn rises(top: Top, more: Top) -> bool
    ensures { result ≡ rises top more }
{
    match more {
        Top::Nothing => false,
        Top::One(a) => !covers(top, a),
        Top::Two(a, b) => !covers(top, a) || !covers(top, b),
        Top::Endless => !is_endless(top),
    }
}

fn moved(top: Top, pops: u64, pushes: u64) -> Top
    requires small { IsSmall (2 ^ 62) top }
    requires one { pushes < 2 ^ 62 }
    ensures { result ≡ moved top pops pushes }
{
    match top {
        Top::Nothing => Top::Nothing,
        Top::One(a) => {
            if pops <= a {
                Top::One(a - pops + pushes)
            } else {
                Top::Nothing
            }
        }
        Top::Two(a, b) => {
            if pops <= b {
                Top::Two(a - pops + pushes, b - pops + pushes)
            } else if pops <= a {
                Top::One(a - pops + pushes)
            } else {
                Top::Nothing
            }
        }
        Top::Endless => Top::Endless,
    }
}

// ---- rows

/// The top of a place.
pub fn top_of(row: &[Top], place: usize) -> Top
    requires { place < length row.now }
    ensures { result ≡ top_at row.now place }
{
    row[place]
}

// Takes a top to a place, and tells whether that rose.
fn take(row: &mut Items<Top>, to: usize, top: Top) -> bool
    requires { to < length row.old }
    ensures rose { result ≡ rises (top_at row.old to) top }
    ensures row { row.new ≡ taken_to row.old to top }
{
    let before = row.as_slice()[to];
    if !rises(before, top) {
        return false;
    }
    let most = row.len() as u64;
    row.set(to, joined_all(most, before, top));
    true
}

// Takes a top along a way on, unless it leaves the code.
fn follow(row: &mut Items<Top>, top: Top, step: Step) -> bool
    requires small { IsSmall (2 ^ 62) top }
    requires one { step.pushes < 2 ^ 62 }
    ensures rose { result ≡ follows row.old top step }
    ensures row { row.new ≡ followed row.old top step }
{
    if step.to < row.len() {
        return take(row, step.to, moved(top, step.pops, step.pushes));
    }
    false
}

// The same, if there is a way on.
fn follow_some(row: &mut Items<Top>, top: Top, step: Option<Step>) -> bool
    requires small { IsSmall (2 ^ 62) top }
    requires one { (some : Step) → Some some ≡ step → some.pushes < 2 ^ 62 }
    ensures rose { result ≡ follows_some row.old top step }
    ensures row { row.new ≡ followed_some row.old top step }
{
    match step {
        None => false,
        Some(step) => follow(row, top, step),
    }
}

/// Takes the top of a place along the ways on from there.
pub fn visit(code: &Code, row: &mut Items<Top>, place: usize) -> bool
    requires place { place < length code.now.instrs }
    requires count { length row.old ≡ length code.now.instrs }
    requires few { length code.now.instrs < 2 ^ 32 }
    requires small { AreSmall (length code.now.instrs) row.old }
    ensures count { length row.new ≡ length code.now.instrs }
    ensures small { AreSmall (length code.now.instrs) row.new }
    ensures course { (owner : Owner) → AreFound code.now owner row.old
        → IsCourse code.now owner (λ after. IsClosedAt code.now after place) row.old row.new result }
{
    let top = top_of(row.as_slice(), place);
    let on = steps_at(code, &code.instrs.as_slice()[place], place);
    let next = follow_some(row, top, on.next);
    let jump = follow_some(row, top, on.jump);
    next || jump
}

/// One pass over places, in their order.
pub fn pass(code: &Code, places: &[usize], row: &mut Items<Top>) -> bool
    requires inside { (place : ℕ) → Contains places.now place → place < length code.now.instrs }
    requires count { length row.old ≡ length code.now.instrs }
    requires few { length code.now.instrs < 2 ^ 32 }
    requires small { AreSmall (length code.now.instrs) row.old }
    ensures count { length row.new ≡ length code.now.instrs }
    ensures small { AreSmall (length code.now.instrs) row.new }
    ensures course { (owner : Owner) → AreFound code.now owner row.old
        → IsCourse code.now owner (λ after. (place : ℕ) → Contains places.now place → IsClosedAt code.now after place) row.old row.new result }
{
    let mut rose = false;
    'places: for place in places {
        rose |= visit(code, row, *place);
    }
    rose
}

// Sets the height of one place, unless it is outside the code.
fn begin_at(row: &mut Items<Top>, start: usize)
    ensures { row.new ≡ begun_at row.old start }
{
    if start < row.len() {
        row.set(start, Top::One(0));
    }
}

/// Sets the height of the places where an owner begins.
pub fn begin(code: &Code, starts: &[u32], row: &mut Items<Top>)
    requires empty { IsEmpty (length code.now.instrs) row.old }
    ensures count { length row.new ≡ length code.now.instrs }
    ensures small { AreSmall (length code.now.instrs) row.new }
    ensures found { (owner : Owner) → AreStarts code.now owner starts.now → AreFound code.now owner row.new }
    ensures begun { (place : ℕ) → Contains starts.now place → place < length code.now.instrs → top_at row.new place ≡ top.One 0 }
{
    'starts: for start in starts {
        begin_at(row, *start as usize);
    }
}

/// Empties the row again.
pub fn clear(code: &Code, places: &[usize], row: &mut Items<Top>)
    requires inside { (place : ℕ) → Contains places.now place → place < length code.now.instrs }
    requires count { length row.old ≡ length code.now.instrs }
    requires listed { (place : ℕ) → (top_at row.old place ≡ top.Nothing) ⊎ Contains places.now place }
    ensures { IsEmpty (length code.now.instrs) row.new }
{
    'places: for place in places {
        row.set(*place, Top::Nothing);
    }
}
