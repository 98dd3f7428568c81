// Makes each call of the fixed lists that the Rust answered, and counts the answers that differ (oracle/README.md has the lists' form).
#![tactic(auto)]

ghost use Rattle.std.specs.Prelude.{◌↔◌, IsTrue};
ghost use Rattle.refusals.specs.Numbers.{number_of};
ghost use Rattle.replay.specs.Records.{left, HasAnswer};

mod words;

use parallel_serial::{RunSpec, Sets, Shape};
use reducer::{Edges, Kind, PairOperation, RegularEdges};
use refusals::Refusal;
use spatial::{Block, CellWidth};
use state_refusals::{PackShape, StateKind};
use std::fs;
use std::io::{self, Read};
use unstructured_points::PointSet;
use words::Record;

#[derive(Clone, Copy, PartialEq, Eq, Debug)]
enum Operation {
    RegularLookup,
    IrregularLookup,
    Segment,
    Reset,
    Merge,
    Consolidation,
    StateResult,
    Points,
    Blocks,
}

// The lists' codes.
impl TryFrom<u64> for Operation {
    type Error = u64;

    fn try_from(code: u64) -> Result<Operation, u64> {
        match code {
            1 => Ok(Operation::RegularLookup),
            2 => Ok(Operation::IrregularLookup),
            3 => Ok(Operation::Segment),
            4 => Ok(Operation::Reset),
            5 => Ok(Operation::Merge),
            6 => Ok(Operation::Consolidation),
            7 => Ok(Operation::StateResult),
            8 => Ok(Operation::Points),
            9 => Ok(Operation::Blocks),
            _ => Err(code),
        }
    }
}

// ---- lookups and segments: the three words are what C gets

// min max n v -> number, found, index
fn regular_lookup(record: &mut Record) -> bool {
    let min = record.float();
    let max = record.float();
    let n_bins = record.count();
    let value = record.float();
    let answer = bin_lookups::regular_bin_index(min, max, n_bins, value);
    record.has_words(&capi_words::lookup_words(answer))
}

// n edges.. v -> number, found, index
fn irregular_lookup(record: &mut Record) -> bool {
    let n = record.count();
    let edges = record.floats(n);
    let value = record.float();
    let answer = bin_lookups::irregular_bin_index(edges, value);
    record.has_words(&capi_words::lookup_words(answer))
}

// n_indices seg_index n_segments -> number, start, stop
fn segment(record: &mut Record) -> bool {
    let n_indices = record.count();
    let seg_index = record.count();
    let n_segments = record.count();
    let answer = misc::segment_idx_bounds(n_indices, seg_index, n_segments);
    record.has_words(&capi_words::segment_words(answer))
}

// ---- calls that may write a slice -> number, the slice after

// The next n numbers, copied for a call to work on.
fn lent<'a>(record: &mut Record, n: usize, room: &'a mut [f64]) -> &'a mut [f64] {
    let given = record.floats(n);
    let n = given.len().min(room.len());
    let slice = &mut room[..n];
    slice.copy_from_slice(&given[..n]);
    slice
}

// Whether the call's number and the slice after are what is left of the record.
fn slice_agrees(record: &mut Record, answer: Result<(), Refusal>, slice: &[f64]) -> bool
    ensures { IsTrue result ↔ HasAnswer (number_of answer) slice.now (left record.old) }
{
    // A word past the record's end is 0, which is the number of an accepted call.
    if record.words.is_empty() {
        return false;
    }
    record.word() == u64::from(refusals::number_of(answer)) && record.has_floats(slice)
}

// The form 2 is a histogram, the others are means.
fn state_kind(record: &mut Record) -> StateKind {
    let histogram = record.word() == 2;
    capi_words::state_kind_from(u64::from(histogram), record.count())
}

fn pack_shape(record: &mut Record) -> PackShape {
    PackShape {
        n_states: record.count(),
        state_size: record.count(),
    }
}

// form value_bins states size len slice..
fn reset(record: &mut Record, room: &mut [f64]) -> bool {
    let kind = state_kind(record);
    let shape = pack_shape(record);
    let n = record.count();
    let pack = lent(record, n, room);
    let answer = state::reset_full_statepack(kind, shape, pack);
    slice_agrees(record, answer, pack)
}

// form value_bins states size states2 size2 len len2 slice.. slice2..
fn merge(record: &mut Record, room: &mut [f64]) -> bool {
    let kind = state_kind(record);
    let shape = pack_shape(record);
    let other_shape = pack_shape(record);
    let n = record.count();
    let other_n = record.count();
    let pack = lent(record, n, room);
    let other = record.floats(other_n);
    let answer = state::merge_full_statepacks(kind, shape, other_shape, pack, other);
    slice_agrees(record, answer, pack)
}

// form value_bins packs states size len slice..
fn consolidate(record: &mut Record, room: &mut [f64]) -> bool {
    let kind = state_kind(record);
    let n_packs = record.count();
    let shape = pack_shape(record);
    let n = record.count();
    let packs = lent(record, n, room);
    let answer = state::serial_consolidate_scratch_statepacks(kind, n_packs, shape, packs);
    slice_agrees(record, answer, packs)
}

// form value_bins states size index len room slice.. value..
fn state_result(record: &mut Record, room: &mut [f64]) -> bool {
    let kind = state_kind(record);
    let shape = pack_shape(record);
    let index = record.count();
    let n = record.count();
    let value_n = record.count();
    let pack = record.floats(n);
    let value = lent(record, value_n, room);
    let answer = state::value_from_accum_state(kind, shape, index, pack, value);
    slice_agrees(record, answer, value)
}

// ---- runs: cross op form, set or block a, of a cross run b, of blocks the widths, edges, of a histogram value edges, states size members teams len slice..
// -> number, the slice after

// What a record of a run begins with. The form is C's number: the value edges, which a Kind would hold, stand later in the record.
#[derive(Clone, Copy)]
struct RunHead {
    cross: bool,
    op: PairOperation,
    form: u64,
}

fn read_run_head(record: &mut Record) -> RunHead {
    let cross = record.word() == 1;
    let op = capi_words::op_from(record.word());
    let form = record.word();
    RunHead { cross, op, form }
}

// n stated stride, the columns' lengths, the columns; the stride is given where `stated` is 1
fn read_set<'a>(record: &mut Record<'a>) -> PointSet<'a> {
    let n_points = record.count();
    let stated = record.word() == 1;
    let stride = capi_words::stride_from(u64::from(stated), record.count());
    let lengths = [record.count(), record.count(), record.count()];
    PointSet {
        positions: record.floats(lengths[0]),
        values: record.floats(lengths[1]),
        weights: record.floats(lengths[2]),
        n_points,
        stride,
    }
}

// nz ny nx sz sy sx gz gy gx, the columns' lengths, the columns
fn read_block<'a>(record: &mut Record<'a>) -> Block<'a> {
    let axes = [record.count(), record.count(), record.count()];
    let strides = [record.count(), record.count(), record.count()];
    let globals = [record.signed(), record.signed(), record.signed()];
    let lengths = [
        record.count(),
        record.count(),
        record.count(),
        record.count(),
    ];
    Block {
        comp0: record.floats(lengths[0]),
        comp1: record.floats(lengths[1]),
        comp2: record.floats(lengths[2]),
        weights: record.floats(lengths[3]),
        nz: axes[0],
        ny: axes[1],
        nx: axes[2],
        sz: strides[0],
        sy: strides[1],
        sx: strides[2],
        gz: globals[0],
        gy: globals[1],
        gx: globals[2],
    }
}

fn read_width(record: &mut Record) -> CellWidth {
    CellWidth {
        z: record.float(),
        y: record.float(),
        x: record.float(),
    }
}

// 0 min max n, or 1 len edges..
fn read_edges<'a>(record: &mut Record<'a>) -> Edges<'a> {
    if record.word() == 0 {
        return Edges::Regular(RegularEdges {
            min: record.float(),
            max: record.float(),
            n_bins: record.count(),
        });
    }
    let n = record.count();
    Edges::Irregular(record.floats(n))
}

// The value edges of a form without any of its own: the regular ones that the next words would be, which are read again after, or no edges.
fn edges_ahead<'a>(mut record: Record<'a>) -> Edges<'a> {
    match read_edges(&mut record) {
        Edges::Regular(edges) => Edges::Regular(edges),
        Edges::Irregular(_) => Edges::Irregular(&[]),
    }
}

// A histogram's value edges stand in the record where its form is 2.
fn read_kind<'a>(record: &mut Record<'a>, form: u64) -> Kind<'a> {
    let edges = if form == 2 {
        read_edges(record)
    } else {
        edges_ahead(*record)
    };
    capi_words::kind_from(form, edges)
}

fn read_shape(record: &mut Record) -> Shape {
    Shape {
        pack: PackShape {
            n_states: record.count(),
            state_size: record.count(),
        },
        members: record.count(),
        teams: record.count(),
    }
}

// What stands after the sets or blocks.
fn read_spec<'a>(record: &mut Record<'a>, head: RunHead) -> RunSpec<'a> {
    RunSpec {
        edges: read_edges(record),
        kind: read_kind(record, head.form),
        op: head.op,
        shape: read_shape(record),
    }
}

fn run_points(sets: Sets<PointSet>, spec: RunSpec, pack: &mut [f64]) -> Result<(), Refusal> {
    match sets {
        Sets::Auto(a) => unstructured::points_auto(a, spec, pack),
        Sets::Cross(a, b) => unstructured::points_cross(a, b, spec, pack),
    }
}

fn points(record: &mut Record, room: &mut [f64]) -> bool {
    let head = read_run_head(record);
    let a = read_set(record);
    let sets = if head.cross {
        Sets::Cross(a, read_set(record))
    } else {
        Sets::Auto(a)
    };
    let spec = read_spec(record, head);
    let n = record.count();
    let pack = lent(record, n, room);
    let answer = run_points(sets, spec, &mut *pack);
    slice_agrees(record, answer, pack)
}

fn run_blocks(
    sets: Sets<Block>,
    width: CellWidth,
    spec: RunSpec,
    pack: &mut [f64],
) -> Result<(), Refusal> {
    match sets {
        Sets::Auto(a) => twopoint_cartesian::blocks_auto(a, width, spec, pack),
        Sets::Cross(a, b) => twopoint_cartesian::blocks_cross(a, b, width, spec, pack),
    }
}

fn blocks(record: &mut Record, room: &mut [f64]) -> bool {
    let head = read_run_head(record);
    let a = read_block(record);
    let sets = if head.cross {
        Sets::Cross(a, read_block(record))
    } else {
        Sets::Auto(a)
    };
    let width = read_width(record);
    let spec = read_spec(record, head);
    let n = record.count();
    let pack = lent(record, n, room);
    let answer = run_blocks(sets, width, spec, &mut *pack);
    slice_agrees(record, answer, pack)
}

// ---- one call

// Whether the call of the record answers as the list says.
fn agrees(operation: Operation, record: &mut Record, room: &mut [f64]) -> bool {
    match operation {
        Operation::RegularLookup => regular_lookup(record),
        Operation::IrregularLookup => irregular_lookup(record),
        Operation::Segment => segment(record),
        Operation::Reset => reset(record, room),
        Operation::Merge => merge(record, room),
        Operation::Consolidation => consolidate(record, room),
        Operation::StateResult => state_result(record, room),
        Operation::Points => points(record, room),
        Operation::Blocks => blocks(record, room),
    }
}

// ---- the lists

// How many calls a list may have, and how many words a record.
const MOST_CALLS: u64 = 100_000;

const MOST_WORDS: u64 = 8192;

// A record's two first words: its operation, if there is one of that code, and how many words follow.
#[derive(Clone, Copy)]
struct Head {
    operation: Option<Operation>,
    n: u64,
}

// None where the list ends. Both words by one read.
fn read_head<F: Read>(file: &mut F) -> Option<Head> {
    let mut bytes = [0; 16];
    file.read_exact(&mut bytes).ok()?;
    let (eights, _) = bytes.as_chunks::<8>();
    let code = u64::from_le_bytes(eights[0]);
    let n = u64::from_le_bytes(eights[1]);
    let operation = Operation::try_from(code).ok();
    Some(Head { operation, n })
}

// Whether the record's call answers as the list says.
fn call<F: Read>(
    file: &mut F,
    operation: Option<Operation>,
    bytes: &mut [u8],
    words: &mut [u64],
    floats: &mut [f64],
    room: &mut [f64],
) -> bool {
    if file.read_exact(bytes).is_err() {
        return false;
    }
    words::decode(bytes, words, floats);
    let mut record = Record { words, floats };
    match operation {
        Some(operation) => agrees(operation, &mut record, room),
        None => false,
    }
}

fn report(rt: &HostRuntime, name: &str, calls: u64, differ: u64) -> io::Result<()> {
    println!(rt; "{name} {calls} calls, {differ} differ")
}

// A list, by its file's name. Fixed memory: the record's bytes, words and floats, and the slice that a call may write.
fn replay(rt: &HostRuntime, name: &str) -> io::Result<()> {
    let mut file = fs::open(rt, name)?;
    let mut bytes = [0u8; 65536];
    let mut words = [0u64; 8192];
    let mut floats = [0.0; 8192];
    let mut room = [0.0; 8192];
    let mut calls = 0;
    let mut differ = 0;
    for _ in 0..MOST_CALLS {
        let Some(head) = read_head(&mut file) else {
            break;
        };
        if head.n > MOST_WORDS {
            differ += 1;
            break;
        }
        let n = head.n as usize;
        if !call(
            &mut file,
            head.operation,
            &mut bytes[..n * 8],
            &mut words[..n],
            &mut floats[..n],
            &mut room,
        ) {
            differ += 1;
        }
        calls += 1;
    }
    report(rt, name, calls, differ)
}

fn main(rt: HostRuntime) -> io::Result<()> {
    replay(&rt, "lookup.bin")?;
    replay(&rt, "segments.bin")?;
    replay(&rt, "pack.bin")?;
    replay(&rt, "points.bin")?;
    replay(&rt, "blocks.bin")
}
