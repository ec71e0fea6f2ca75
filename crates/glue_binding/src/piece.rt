//! Pieces, and the statements that they make.
ghost use Rattle.std.specs.Prelude.{◌≡◌, ◌∷◌, [], IfOk};
ghost use Rattle.glue_tree.specs.Plainly.{plain_stmt, plain_stmts};
ghost use Rattle.glue_tree.specs.Term as t;
ghost use Rattle.glue_binding.specs.Body.{plain_piece, plain_pieces, behind};
ghost use Rattle.glue_binding.specs.Spelling.{nested};

use glue_tree::Stmt;
use std::alloc::{AllocError, Global};
use values::Seq;

/// What a step adds to the statements.
#[derive(Drop)]
pub enum Piece {
    /// A statement in front of all that comes after.
    Ahead(Stmt),
    /// A cleanup after all that comes after.
    Cleanup(Stmt),
}

/// A list of one statement.
pub fn one(alloc: Global, line: Stmt) -> Result<Seq<Stmt>, AllocError>
    ensures { IfOk result (λ lines. plain_stmts lines ≡ t.AndLine (plain_stmt line) t.NoLines) }
{
    let mut lines = Seq::new(alloc);
    lines.push(line)?;
    Ok(lines)
}

// `try { rest } finally { line }`, where the last of the rest comes first.
#[tactic(auto, unfolding(crate::specs::Body::behind))]
fn cleaned(alloc: Global, line: Stmt, rest: Vec<Stmt>) -> Result<Stmt, AllocError>
    ensures { IfOk result (λ whole. plain_stmt whole ≡ t.Always (behind rest.items)
        (t.AndLine (plain_stmt line) t.NoLines)) }
{
    let mut body = rest;
    body.reverse();
    Ok(Stmt::Finally(Seq::from_vec(body), one(alloc, line)?))
}

// A piece in front of statements of which the last comes first.
#[tactic(auto, unfolding(crate::specs::Body::behind))]
fn put_in_front(alloc: Global, piece: Piece, rest: Vec<Stmt>) -> Result<Vec<Stmt>, AllocError>
    ensures { IfOk result (λ lines. behind lines.items ≡ nested (plain_piece piece ∷ []) (behind rest.items)) }
{
    match piece {
        Piece::Ahead(line) => {
            let mut lines = rest;
            lines.push(line)?;
            Ok(lines)
        }
        Piece::Cleanup(line) => {
            let mut lines = Vec::new(alloc);
            lines.push(cleaned(alloc, line, rest)?)?;
            Ok(lines)
        }
    }
}

/// The statements of pieces.
pub fn join(alloc: Global, pieces: Seq<Piece>) -> Result<Seq<Stmt>, AllocError>
    ensures tree { IfOk result (λ tree. plain_stmts tree ≡ nested (plain_pieces pieces) t.NoLines) }
{
    let mut left = pieces;
    let mut lines = Vec::new(alloc);
    while let Some(piece) = left.pop() {
        lines = put_in_front(alloc, piece, lines)?;
    }
    lines.reverse();
    Ok(Seq::from_vec(lines))
}
