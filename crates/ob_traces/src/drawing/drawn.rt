ghost use Rattle.std.specs.Prelude.{◌≡◌, ◌++◌, List, OnOk};
ghost use Rattle.std.specs.List.{flat_map};
ghost use Rattle.ob_traces.specs.declared.drawing.piece.Piece.{Piece};
ghost use Rattle.ob_traces.specs.declared.drawing.scale.Scale.{Scale};

use crate::drawing::piece::Piece;
use crate::drawing::scale::Scale;
use std::alloc::AllocError;

/// What a picture shows of each line alike, or of each number of an axis.
pub trait Drawn {
    /// What it is shown of.
    type Of: Copy;

    /// The pieces of one.
    ghost drawn: { Scale → Self.Of → List Piece };

    /// Adds the pieces of one.
    fn push(pieces: &mut Vec<Piece>, scale: Scale, point: Self::Of) -> Result<(), AllocError>
        ensures { OnOk result (pieces.new.items ≡ pieces.old.items ++ drawn scale point) };
}

/// Adds the pieces of each.
pub fn push_each<D: Drawn>(
    pieces: &mut Vec<Piece>,
    scale: Scale,
    points: &[D::Of],
) -> Result<(), AllocError>
    ensures { OnOk result (pieces.new.items ≡ pieces.old.items ++ flat_map (D.drawn scale) points.now) }
{
    for point in points {
        D::push(pieces, scale, *point)?;
    }
    Ok(())
}
