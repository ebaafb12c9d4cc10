//! The points that ways through statements reach first.

ghost use Rattle.std.specs.Prelude.{◌≡◌, ◌≤◌, length, nat_eq};
ghost use Rattle.psy_meaning.specs.Rest.{rest, rests_of, rests_of_list};
ghost use Rattle.psy_flow.specs.Reach.{falls, reaches, all_fall, some_reaches, pieces_reach, marked, IsReached};

use psy_base::Items;
use psy_tree::Stmt;

/// What comes of going to an `advance` by its number, counted from 0 in the order of the text.
#[derive(Clone, Copy, Debug)]
pub enum Reached {
    /// Whether a way behind it falls through.
    Found(bool),
    /// It stands further on, and has this number there.
    Further(u32),
}

/// Marks a point, where there is one of this number.
pub fn mark(marks: &mut Items<bool>, point: u32)
    ensures { marks.new ≡ marked marks.old (λ q. nat_eq point q) }
{
    if (point as usize) < marks.len() {
        marks.set(point as usize, true);
    }
}

/// Marks the points that the statement reaches first, and tells whether a way falls through.
#[cycle(reach)]
fn reach_stmt(marks: &mut Items<bool>, stmt: &Stmt) -> bool
    ensures falls { result ≡ falls stmt.now }
    ensures marks { marks.new ≡ marked marks.old (reaches stmt.now) }
{
    match stmt {
        Stmt::Advance(point) => {
            mark(marks, *point);
            false
        }
        Stmt::Return(_) => false,
        Stmt::If(_, branch, other) => {
            let first = reach_stmts(marks, branch.as_slice());
            match other {
                None => true,
                Some(other) => {
                    let second = reach_stmts(marks, other.as_slice());
                    first || second
                }
            }
        }
        Stmt::Bounded(_, most, body) => {
            if *most > 0 {
                reach_stmts(marks, body.as_slice());
            }
            true
        }
        Stmt::Timed(_, body) => {
            reach_stmts(marks, body.as_slice());
            true
        }
        Stmt::Set(..) | Stmt::SetCopy(..) | Stmt::SetCell(..) | Stmt::Send { .. } => true,
    }
}

/// The same for statements one after the other.
#[cycle(reach)]
fn reach_stmts(marks: &mut Items<bool>, stmts: &[Stmt]) -> bool
    ensures falls { result ≡ all_fall stmts.now }
    ensures marks { marks.new ≡ marked marks.old (some_reaches stmts.now) }
{
    for stmt in stmts {
        if !reach_stmt(marks, stmt) {
            return false;
        }
    }
    true
}

#[cycle(behind)]
fn reach_behind_in(marks: &mut Items<bool>, stmt: &Stmt, number: u32) -> Reached
    ensures { IsReached (rests_of stmt.now) number marks.old marks.new result }
{
    match stmt {
        Stmt::Advance(_) => {
            if number == 0 {
                return Reached::Found(true);
            }
            Reached::Further(number - 1)
        }
        Stmt::If(_, branch, other) => {
            let reached = reach_behind(marks, branch.as_slice(), number);
            match other {
                None => reached,
                Some(other) => match reached {
                    Reached::Found(falling) => Reached::Found(falling),
                    Reached::Further(left) => reach_behind(marks, other.as_slice(), left),
                },
            }
        }
        Stmt::Timed(_, turn) => match reach_behind(marks, turn.as_slice(), number) {
            Reached::Found(true) => Reached::Found(reach_stmt(marks, stmt)),
            Reached::Found(false) => Reached::Found(false),
            Reached::Further(left) => Reached::Further(left),
        },
        Stmt::Bounded(_, _, turn) => reach_behind(marks, turn.as_slice(), number),
        _ => Reached::Further(number),
    }
}

#[cycle(behind)]
fn reach_behind(marks: &mut Items<bool>, stmts: &[Stmt], number: u32) -> Reached
    ensures { IsReached (rests_of_list stmts.now) number marks.old marks.new result }
{
    let mut left = number;
    for (place, stmt) in stmts.iter().enumerate() {
        match reach_behind_in(marks, stmt, left) {
            Reached::Found(true) => {
                return Reached::Found(reach_stmts(marks, &stmts[place + 1..]));
            }
            Reached::Found(false) => return Reached::Found(false),
            Reached::Further(next) => left = next,
        }
    }
    Reached::Further(left)
}

/// Marks the points that the code behind a point reaches first.
pub fn reach_from(marks: &mut Items<bool>, stmts: &[Stmt], point: u32)
    requires { point ≤ length (rests_of_list stmts.now) }
    ensures { marks.new ≡ marked marks.old (pieces_reach (rest stmts.now point)) }
{
    if point == 0 {
        reach_stmts(marks, stmts);
        return;
    }
    match reach_behind(marks, stmts, point - 1) {
        Reached::Found(true) => {
            reach_stmts(marks, stmts);
        }
        Reached::Found(false) => {}
        // There is an `advance` of this number.
        Reached::Further(_) => {}
    }
}
