// What `curve` prints of other files: refusals in their order, odd numbers, and the largest survey.
#![tactic(auto)]

use record_files::{EDGES_ROOM, POINTS_ROOM, TEXT_BYTES};
use std::io::{self, Write};

// The files' names, then what is printed of them.
fn show(rt: &HostRuntime, points_name: &[u8], edges_name: &[u8]) -> io::Result<()> {
    let mut out = io::writer(rt);
    out.write_all(points_name)?;
    out.write_all(b" ")?;
    out.write_all(edges_name)?;
    out.write_all(b"\n")?;
    let mut points = [0u8; POINTS_ROOM];
    let mut edges = [0u8; EDGES_ROOM];
    let mut text = [0u8; TEXT_BYTES];
    let read = record_files::text_of_files(
        rt,
        points_name,
        edges_name,
        &mut points,
        &mut edges,
        &mut text,
    );
    out.write_all(&text[..read.text_length])
}

// 28, before anything else. The folder itself can be opened, but not read.
fn unreadable(rt: &HostRuntime) -> io::Result<()> {
    show(rt, b"missing.rec", b"k10_edges.rec")?;
    show(rt, b"k10_points.rec", b"missing.rec")?;
    show(rt, b"missing.rec", b"missing.rec")?;
    show(rt, b".", b"k10_edges.rec")?;
    show(rt, b"long_points.rec", b".")
}

// 7, before 27.
fn too_long(rt: &HostRuntime) -> io::Result<()> {
    show(rt, b"long_points.rec", b"k10_edges.rec")?;
    show(rt, b"k10_points.rec", b"long_edges.rec")?;
    show(rt, b"short_points.rec", b"long_edges.rec")
}

// 27, before the points' and the edges' own numbers.
fn cut_short(rt: &HostRuntime) -> io::Result<()> {
    show(rt, b"short_points.rec", b"k10_edges.rec")?;
    show(rt, b"k10_points.rec", b"short_edges.rec")?;
    show(rt, b"empty.rec", b"short_edges.rec")
}

// Points, then edges.
fn broken(rt: &HostRuntime) -> io::Result<()> {
    show(rt, b"empty.rec", b"k10_edges.rec")?;
    show(rt, b"empty.rec", b"empty.rec")?;
    show(rt, b"k10_points.rec", b"empty.rec")?;
    show(rt, b"k10_points.rec", b"one_edge.rec")?;
    show(rt, b"k10_points.rec", b"nan_edges.rec")?;
    show(rt, b"k10_points.rec", b"infinite_edges.rec")?;
    show(rt, b"k10_points.rec", b"equal_edges.rec")?;
    show(rt, b"k10_points.rec", b"signed_zero_edges.rec")
}

fn main(rt: HostRuntime) -> io::Result<()> {
    show(&rt, b"k10_points.rec", b"k10_edges.rec")?;
    unreadable(&rt)?;
    too_long(&rt)?;
    cut_short(&rt)?;
    broken(&rt)?;
    show(&rt, b"one_point.rec", b"k10_edges.rec")?;
    show(&rt, b"k10_points.rec", b"below_zero_edges.rec")?;
    show(&rt, b"odd_points.rec", b"odd_edges.rec")?;
    show(&rt, b"large_points.rec", b"large_edges.rec")
}
