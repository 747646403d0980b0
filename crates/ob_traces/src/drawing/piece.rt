ghost use Rattle.std.specs.Prelude.{◌≡◌, ◌++◌, OnOk, string_bytes};
ghost use Rattle.std.specs.List.{flat_map};
ghost use Rattle.ob_traces.specs.Draw.{fixed_text, piece_text, tenths_text};

use ob_script::push_number;
use std::alloc::AllocError;

/// A piece of the text of a picture.
#[derive(Clone, Copy)]
pub enum Piece {
    Fixed(Fixed),
    /// A length in pixels, by its tenths.
    Tenths(u64),
    Number(u64),
}

/// A piece that each picture has alike.
#[derive(Clone, Copy)]
pub enum Fixed {
    Head,
    ShadeAt,
    ShadeWide,
    ShadeEnd,
    Axes,
    TickBelow,
    TickBelowEnd,
    TickBesideAt,
    TickBeside,
    TickBesideEnd,
    MarkAt,
    MarkName,
    Low,
    High,
    TextEnd,
    PathAt,
    Space,
    Down,
    Along,
    CurveEnd,
    Stop,
    Go,
    Legend,
    End,
}

/// Adds the text of the pieces.
pub fn push_pieces(text: &mut String, pieces: &[Piece]) -> Result<(), AllocError>
    ensures { OnOk result (string_bytes text.new ≡ string_bytes text.old ++ flat_map piece_text pieces.now) }
{
    for piece in pieces {
        push_piece(text, *piece)?;
    }
    Ok(())
}

/// Adds the text of a piece.
fn push_piece(text: &mut String, piece: Piece) -> Result<(), AllocError>
    ensures { OnOk result (string_bytes text.new ≡ string_bytes text.old ++ piece_text piece) }
{
    match piece {
        Piece::Fixed(fixed) => text.push_str(fixed.text()),
        Piece::Tenths(tenths) => push_tenths(text, tenths),
        Piece::Number(number) => push_number(text, number),
    }
}

/// Adds a length in pixels, by its tenths.
fn push_tenths(text: &mut String, tenths: u64) -> Result<(), AllocError>
    ensures { OnOk result (string_bytes text.new ≡ string_bytes text.old ++ tenths_text tenths) }
{
    push_number(text, tenths / 10)?;
    text.push('.')?;
    push_number(text, tenths % 10)
}

impl Fixed {
    /// The text of the piece.
    fn text(self) -> &'static str
        ensures { result.now ≡ fixed_text self }
    {
        match self {
            Fixed::Head =>
                "<svg xmlns=\"http://www.w3.org/2000/svg\" viewBox=\"0 0 960 400\" font-family=\"sans-serif\" font-size=\"12\">\n<title>The pending bytes over the lines of a trace, against the low and the high mark</title>\n<rect width=\"960\" height=\"400\" fill=\"white\"/>\n",
            Fixed::ShadeAt => "<rect x=\"",
            Fixed::ShadeWide => "\" y=\"44\" width=\"",
            Fixed::ShadeEnd => "\" height=\"306\" fill=\"#fbe3d6\"/>\n",
            Fixed::Axes => "<path d=\"M112 44 V350 H864 V44\" fill=\"none\" stroke=\"#222222\"/>\n",
            Fixed::TickBelow => " 350 v5\" stroke=\"#222222\"/>\n<text x=\"",
            Fixed::TickBelowEnd => "\" y=\"367\" text-anchor=\"middle\" fill=\"#222222\">",
            Fixed::TickBesideAt => "<path d=\"M864 ",
            Fixed::TickBeside => " h5\" stroke=\"#222222\"/>\n<text x=\"872\" y=\"",
            Fixed::TickBesideEnd => "\" fill=\"#222222\">",
            Fixed::MarkAt => "<path d=\"M112 ",
            Fixed::MarkName =>
                " H864\" stroke=\"#7a7a7a\" stroke-dasharray=\"6 4\"/>\n<text x=\"106\" y=\"",
            Fixed::Low => "\" text-anchor=\"end\">low ",
            Fixed::High => "\" text-anchor=\"end\">high ",
            Fixed::TextEnd => "</text>\n",
            Fixed::PathAt => "<path d=\"M",
            Fixed::Space => " ",
            Fixed::Down => " V",
            Fixed::Along => " H",
            Fixed::CurveEnd => "\" fill=\"none\" stroke=\"#1f4e79\" stroke-width=\"2\"/>\n",
            Fixed::Stop => " l-6 -12 h12 z\" fill=\"#b3261e\"/>\n",
            Fixed::Go => " l-6 12 h12 z\" fill=\"#1b7f3b\"/>\n",
            Fixed::Legend =>
                "<text x=\"112\" y=\"28\" fill=\"#222222\">pending bytes; shaded: writers are stopped</text>\n<text x=\"864\" y=\"390\" text-anchor=\"end\" fill=\"#222222\">",
            Fixed::End =>
                " lines</text>\n<text x=\"112\" y=\"390\" fill=\"#b3261e\">&#9660; stop</text>\n<text x=\"172\" y=\"390\" fill=\"#1b7f3b\">&#9650; go on</text>\n</svg>\n",
        }
    }
}
