//! The piece of a site: one of its flow, or one with a counter on each way of a branch or a loop. No call takes memory.

ghost use Rattle.std.specs.Prelude.{◌≡◌, ℕ, ◌≤◌, true, Option, length};
ghost use Rattle.std.specs.Option.{ForSome};
ghost use Rattle.mv_base.specs.Memory.{exec_bytes};
ghost use Rattle.x86_insn.specs.Flow.{flow_of};
ghost use Rattle.counter_hooks.specs.Rules.{is_branch};
ghost use Rattle.superset.specs.Targets.{target as target_of};
ghost use Rattle.simulation_laws.specs.Pieces.{piece as piece_of, piece_with};
ghost use Rattle.simulation_laws.specs.SitePieces.{bytes_in};

use crate::anchors::{Anchors, Ways};
use branch_lengthen::{branch_piece, copy_piece, count_piece, jump_piece};
use call_rewrite::{call_piece, call_via_piece, jump_via_piece, return_piece};
use counter_hooks::counter_piece;
use edge_hooks::{EdgePiece, edge_piece};
use superset::{Piece, Site};
use x86_insn::Flow;

/// The piece of a site.
#[derive(Drop)]
pub enum SitePiece {
    Plain(Piece),
    /// With a counter on each of its ways.
    Edges(EdgePiece),
}

impl SitePiece {
    /// The bytes as a slice.
    pub fn as_slice(&self) -> &[u8]
        ensures { result.now ≡ bytes_in self.now }
    {
        match self {
            SitePiece::Plain(piece) => piece.as_slice(),
            SitePiece::Edges(piece) => piece.as_slice(),
        }
    }
}

/// The piece of a site that stands at `here`, by the site's own bytes, which are at most 15, and where its target now is;
/// with a counter on each way, where the ways have counters, which only a branch's or a loop's have.
pub fn site_piece(
    own: &[u8],
    site: &Site,
    anchors: Anchors,
    ways: Option<Ways>,
    here: u32,
    to: u32,
) -> SitePiece
    requires short { length own.now ≤ 15 }
    requires branches { ForSome ways (λ w. is_branch (flow_of site.now.insn) ≡ true) }
    ensures { (move : ℕ → ℕ) (code : ℕ → Option ℕ) → to ≡ move (target_of site.now) →
        own.now ≡ exec_bytes code site.now.at site.now.len →
        bytes_in result ≡ piece_with anchors move code ways here site.now }
{
    match ways {
        None => SitePiece::Plain(piece_bytes(own, site, anchors, here, to)),
        Some(Ways { taken, passed }) => {
            let passed = counter_piece(anchors.private, passed);
            let taken = counter_piece(anchors.private, taken);
            SitePiece::Edges(edge_piece(site, here, to, &passed, &taken))
        }
    }
}

/// The piece of a site that stands at `here`, by the site's own bytes, which are at most 15, and where its target now is.
pub fn piece_bytes(own: &[u8], site: &Site, anchors: Anchors, here: u32, to: u32) -> Piece
    requires { length own.now ≤ 15 }
    ensures { (move : ℕ → ℕ) (code : ℕ → Option ℕ) → to ≡ move (target_of site.now) →
        own.now ≡ exec_bytes code site.now.at site.now.len →
        result ≡ piece_of anchors move code here site.now }
{
    let Anchors { stub, private } = anchors;
    match site.insn.next_kind() {
        Flow::Plain | Flow::System | Flow::Trap => copy_piece(own),
        Flow::Jump => jump_piece(site, here, to),
        Flow::Branch => branch_piece(site, here, to),
        Flow::Count => count_piece(site, here, to),
        Flow::Call => call_piece(site, here, to),
        Flow::JumpVia => jump_via_piece(site, here, stub, private),
        Flow::CallVia => call_via_piece(site, here, stub, private),
        Flow::Return => return_piece(site, here, stub, private),
    }
}
