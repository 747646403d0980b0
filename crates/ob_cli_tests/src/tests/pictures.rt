//! Pictures of traces, worked by hand.

use crate::tests::play::{Host, leaves, leaves_of, left};
use std::alloc::{AllocError, Global};
use std::test::Fail;

/// A trace of four lines, whose lines are 188 pixels wide; 496 bytes stand at 283.3 pixels above the axis, and 100 at 57.1.
static TRACE: &str =
    "id 0 t=400 w=00000000\nid 1 t=496 w=00000001 -\nn 2 t=496 w=00000001\nyes t=96 w=00000000 + 0:ok\n";

/// Its picture against the marks 200 and 400. After the shade of the second and third line come the numbers of both axes,
/// the marks, the curve, the triangles and the texts. Five times 100 is more than 496, and five times 50 is not.
static PICTURE: &str = "\
<svg xmlns=\"http://www.w3.org/2000/svg\" viewBox=\"0 0 960 400\" font-family=\"sans-serif\" font-size=\"12\">
<title>The pending bytes over the lines of a trace, against the low and the high mark</title>
<rect width=\"960\" height=\"400\" fill=\"white\"/>
<rect x=\"300.0\" y=\"44\" width=\"376.0\" height=\"306\" fill=\"#fbe3d6\"/>
<path d=\"M112.0 350 v5\" stroke=\"#222222\"/>
<text x=\"112.0\" y=\"367\" text-anchor=\"middle\" fill=\"#222222\">0</text>
<path d=\"M300.0 350 v5\" stroke=\"#222222\"/>
<text x=\"300.0\" y=\"367\" text-anchor=\"middle\" fill=\"#222222\">1</text>
<path d=\"M488.0 350 v5\" stroke=\"#222222\"/>
<text x=\"488.0\" y=\"367\" text-anchor=\"middle\" fill=\"#222222\">2</text>
<path d=\"M676.0 350 v5\" stroke=\"#222222\"/>
<text x=\"676.0\" y=\"367\" text-anchor=\"middle\" fill=\"#222222\">3</text>
<path d=\"M864.0 350 v5\" stroke=\"#222222\"/>
<text x=\"864.0\" y=\"367\" text-anchor=\"middle\" fill=\"#222222\">4</text>
<path d=\"M864 350.0 h5\" stroke=\"#222222\"/>
<text x=\"872\" y=\"354.0\" fill=\"#222222\">0</text>
<path d=\"M864 292.9 h5\" stroke=\"#222222\"/>
<text x=\"872\" y=\"296.9\" fill=\"#222222\">100</text>
<path d=\"M864 235.8 h5\" stroke=\"#222222\"/>
<text x=\"872\" y=\"239.8\" fill=\"#222222\">200</text>
<path d=\"M864 178.6 h5\" stroke=\"#222222\"/>
<text x=\"872\" y=\"182.6\" fill=\"#222222\">300</text>
<path d=\"M864 121.5 h5\" stroke=\"#222222\"/>
<text x=\"872\" y=\"125.5\" fill=\"#222222\">400</text>
<path d=\"M112 44 V350 H864 V44\" fill=\"none\" stroke=\"#222222\"/>
<path d=\"M112 235.8 H864\" stroke=\"#7a7a7a\" stroke-dasharray=\"6 4\"/>
<text x=\"106\" y=\"239.8\" text-anchor=\"end\">low 200</text>
<path d=\"M112 121.5 H864\" stroke=\"#7a7a7a\" stroke-dasharray=\"6 4\"/>
<text x=\"106\" y=\"125.5\" text-anchor=\"end\">high 400</text>
<path d=\"M112.0 350.0 V121.5 H300.0 V66.7 H488.0 V66.7 H676.0 V295.2 H864.0\" fill=\"none\" stroke=\"#1f4e79\" stroke-width=\"2\"/>
<path d=\"M300.0 66.7 l-6 -12 h12 z\" fill=\"#b3261e\"/>
<path d=\"M676.0 295.2 l-6 12 h12 z\" fill=\"#1b7f3b\"/>
<text x=\"112\" y=\"28\" fill=\"#222222\">pending bytes; shaded: writers are stopped</text>
<text x=\"864\" y=\"390\" text-anchor=\"end\" fill=\"#222222\">4 lines</text>
<text x=\"112\" y=\"390\" fill=\"#b3261e\">&#9660; stop</text>
<text x=\"172\" y=\"390\" fill=\"#1b7f3b\">&#9650; go on</text>
</svg>
";

/// Draws a trace, and compares the picture and the end.
fn is_drawn<H: Host>(
    rt: &H,
    trace: Result<String, AllocError>,
    end: Result<String, AllocError>,
) -> Result<(), Fail> {
    let end = end?;
    let told = leaves_of(rt, "ob_tool draw --low 200 --high 400", trace, &end);
    drop(end);
    told
}

/// What stands before and after the trace, and the end: a last line that is of no trace, and lines that show no bytes,
/// change no picture.
static AROUND: [(&str, &str, &str); 3] = [
    ("", "", "status 0: "),
    ("lane 0\n", "end quiet owed=0\n", "status 0: "),
    (
        "",
        "b 304\nlane 1\n",
        "status 2: line 5: fault 8, a line of no trace\n",
    ),
];

#[test]
fn pictures_hold(rt: HostRuntime) -> Result<(), Fail> {
    let alloc = rt.alloc();
    for &(before, behind, end) in &AROUND {
        let trace = format!(in alloc; "{before}{TRACE}{behind}");
        is_drawn(&rt, trace, format!(in alloc; "{PICTURE}{end}"))?;
    }
    Ok(())
}

/// Marks, a trace of one line, and the numbers on the axis of bytes: up to 10 they go by 5, up to 9 by 2, and up to
/// 4294967295, the greatest total, by 1000000000.
static AXES: [(&str, &str, &str); 3] = [
    ("0 10", "10", "0 5 10"),
    ("0 1", "9", "0 2 4 6 8"),
    (
        "0 1",
        "4294967295",
        "0 1000000000 2000000000 3000000000 4000000000",
    ),
];

/// The numbers on the axis of bytes of a picture, parted by spaces.
fn numbers_of(alloc: Global, picture: &str) -> Result<String, AllocError> {
    let mut numbers = String::new(alloc);
    for line in picture.lines() {
        let Some(end) = line.strip_prefix("<text x=\"872\"") else {
            continue;
        };
        if !numbers.is_empty() {
            numbers.push(' ')?;
        }
        let (_, number) = end.split_once('>').unwrap_or(("", end));
        numbers.push_str(number.trim_end_matches("</text>"))?;
    }
    Ok(numbers)
}

#[test]
fn numbers_on_an_axis(rt: HostRuntime) -> Result<(), Fail> {
    let alloc = rt.alloc();
    for &(marks, total, wanted) in &AXES {
        let (low, high) = marks.split_once(' ').unwrap_or((marks, ""));
        let words = format!(in alloc; "ob_tool draw --low {low} --high {high}")?;
        let trace = format!(in alloc; "ok t={total} w=00000000\n")?;
        let picture = left(&rt, &words, &mut trace.as_bytes())?;
        let numbers = numbers_of(alloc, &picture)?;
        assert_eq!(rt; numbers.as_str(), wanted, "{marks}: {total}");
    }
    Ok(())
}

/// If the first line is of no trace, nothing is drawn; after a line that shows no bytes, an empty picture is.
#[test]
fn draws_nothing_of_no_trace(rt: HostRuntime) -> Result<(), Fail> {
    let end = "status 2: line 1: fault 8, a line of no trace\n";
    leaves(&rt, "ob_tool draw", "b 304\nlane 0\n", end)?;
    let left = left(&rt, "ob_tool draw", &mut b"lane 0\nb 304\n".as_slice())?;
    let told = (
        left.starts_with("<svg "),
        left.ends_with("line 2: fault 8, a line of no trace\n"),
    );
    assert_eq!(rt; told, (true, true));
    Ok(())
}
