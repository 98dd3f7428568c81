// Prints the curve of points.rec and edges.rec, or `refused ` and a number.
#![tactic(auto)]

use record_files::{EDGES_ROOM, POINTS_ROOM, TEXT_BYTES};
use std::io::{self, Write};

// Where the text can't be written, as to a closed pipe or a full disk, the error is `main`'s answer: the status is 1, and standard error names it.
fn main(rt: HostRuntime) -> io::Result<()> {
    let mut points = [0u8; POINTS_ROOM];
    let mut edges = [0u8; EDGES_ROOM];
    let mut text = [0u8; TEXT_BYTES];
    let read = record_files::text_of_files(
        &rt,
        b"points.rec",
        b"edges.rec",
        &mut points,
        &mut edges,
        &mut text,
    );
    io::writer(&rt).write_all(&text[..read.text_length])
}
