//! Whether a text sends to a stream.
ghost use Rattle.std.specs.Prelude.{◌≡◌};
ghost use Rattle.psy_meaning.specs.Sendings.{sendings_in, sendings_of};
ghost use Rattle.psy_feed.specs.Arrows.{sends};

use psy_tree::Stmt;

#[cycle(stmt)]
fn stmt_sends(stmt: &Stmt, stream: u32) -> bool
    ensures { result ≡ sends stream (sendings_of stmt.now) }
{
    match stmt {
        Stmt::If(_, branch, other) => {
            let first = stmts_send(branch.as_slice(), stream);
            match other {
                None => first,
                Some(other) => first || stmts_send(other.as_slice(), stream),
            }
        }
        Stmt::Bounded(_, _, body) => stmts_send(body.as_slice(), stream),
        Stmt::Timed(_, body) => stmts_send(body.as_slice(), stream),
        Stmt::Send { stream: own, .. } => *own == stream,
        _ => false,
    }
}

/// Whether statements send to a stream.
#[cycle(stmt)]
pub fn stmts_send(stmts: &[Stmt], stream: u32) -> bool
    ensures { result ≡ sends stream (sendings_in stmts.now) }
{
    for stmt in stmts {
        if stmt_sends(stmt, stream) {
            return true;
        }
    }
    false
}
