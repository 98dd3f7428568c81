// The offsets between the cells of two blocks, in order, and the cells of an axis that take part at an offset (idx_3d_offset.rs).
#![tactic(auto)]

ghost use Rattle.std.specs.Prelude.{◌≡◌, [], ◌∷◌, length, Some};
ghost use Rattle.definitions.specs.Blocks.{start_a, start_b, count as count_of};
ghost use Rattle.idx_3d_offset.specs.Offsets.{idx_of, axis_fits, walkable, Walkable, cross_seq, auto_seq};
ghost use Rattle.idx_3d_offset.specs.Steps.{offset_of, lowest_of, end_of, Inside, IsInside, IsInside-prop, rest, left};

// An offset between cells, in z, y, x order; never a cell's own index, and never a position in the sequence.
#[derive(Clone, Copy)]
pub struct Idx3DOffset(pub i64, pub i64, pub i64);

// The lengths of a block's axes: a type of its own, so that none is taken for an offset or a width.
// That they are walkable is asked by two private functions: a struct that carried it would be made by the same test in each public one.
#[derive(Clone, Copy)]
pub struct Axes {
    pub z: usize,
    pub y: usize,
    pub x: usize,
}

// The walk's own numbers.
type Num = i64;

// An offset in them.
#[derive(Clone, Copy)]
struct Offset {
    z: Num,
    y: Num,
    x: Num,
}

// At least one cell and at most 64.
fn axis_fits(n: usize) -> bool
    ensures { result ≡ axis_fits n }
{
    (1..=64).contains(&n)
}

impl Axes {
    // Each is from 1 to 64.
    #[tactic(auto, unfolding(crate::specs::Offsets::walkable))]
    fn fit(self) -> bool
        ensures { result ≡ walkable self }
    {
        axis_fits(self.z) && axis_fits(self.y) && axis_fits(self.x)
    }

    // The lowest offset of a block with these axes.
    fn lowest(self) -> Offset
        requires { Walkable self }
        ensures { result ≡ lowest_of self }
    {
        Offset {
            z: 1 - self.z as Num,
            y: 1 - self.y as Num,
            x: 1 - self.x as Num,
        }
    }

    // On each axis the first past the highest offset to a block with these axes.
    fn end(self) -> Offset
        requires { Walkable self }
        ensures { result ≡ end_of self }
    {
        Offset {
            z: self.z as Num,
            y: self.y as Num,
            x: self.x as Num,
        }
    }
}

impl Offset {
    // As it is handed out.
    fn handed_out(self) -> Idx3DOffset
        ensures { idx_of result ≡ offset_of self }
    {
        Idx3DOffset(self.z as i64, self.y as i64, self.x as i64)
    }

    // The offset after this one, x fastest: an axis that is past its highest starts at its lowest again.
    fn after(self, lowest: Offset, end: Offset) -> Option<Offset>
        requires { Inside lowest end self }
        ensures inside { IsInside lowest end result }
        ensures next { rest lowest end self ≡ offset_of self ∷ left lowest end result }
    {
        let x = self.x + 1;
        if x < end.x {
            return Some(Offset { x, ..self });
        }
        let y = self.y + 1;
        if y < end.y {
            return Some(Offset {
                z: self.z,
                y,
                x: lowest.x,
            });
        }
        let z = self.z + 1;
        if z < end.z {
            return Some(Offset { z, ..lowest });
        }
        None
    }

    // How many there are from this one on.
    fn count_left(self, lowest: Offset, end: Offset) -> usize
        requires { Inside lowest end self }
        ensures { result ≡ length (rest lowest end self) }
    {
        let planes = end.z - 1 - self.z;
        let rows = planes * (end.y - lowest.y) + (end.y - 1 - self.y);
        (rows * (end.x - lowest.x) + (end.x - self.x)) as usize
    }
}

// On an axis: the first of a's cells that has a partner at offset d.
#[tactic(auto, using(crate::proofs::Ranges::start_a_is))]
pub fn start_a(d: i64) -> usize
    ensures { result ≡ start_a d }
{
    d.min(0).unsigned_abs() as usize
}

// The first of b's cells that has one.
#[tactic(auto, using(crate::proofs::Ranges::start_cast, crate::proofs::Ranges::start_b_is))]
pub fn start_b(d: i64) -> usize
    ensures { result ≡ start_b d }
{
    d.max(0) as usize
}

// How many have one, of a's cells and b's: not min(a, b).
#[tactic(auto, using(crate::proofs::Ranges::count_is))]
pub fn count(d: i64, a: usize, b: usize) -> usize
    ensures { result ≡ count_of a b d }
{
    a.saturating_sub(start_a(d))
        .min(b.saturating_sub(start_b(d)))
}

// The offsets of two blocks, or of a block with itself, in order: the next one, and where each axis starts and ends.
// Each is found from the one before by additions: its number in the sequence would take two divisions.
#[derive(Drop)]
pub struct Offsets {
    lowest: Offset,
    end: Offset,
    next: Option<Offset>,
    ghost inside: { IsInside lowest end next } by { IsInside-prop lowest end next },
}

impl Offsets {
    ghost use Rattle.idx_3d_offset.specs.Walk.{offsets_left};

    // No offset.
    fn none() -> Offsets
        ensures { offsets_left result ≡ [] }
    {
        let zero = Offset { z: 0, y: 0, x: 0 };
        Offsets {
            lowest: zero,
            end: zero,
            next: None,
        }
    }

    // All offsets of two blocks.
    #[tactic(auto, using(crate::proofs::Sequence::axes_fit), unfolding(crate::specs::Offsets::cross_seq))]
    pub fn cross(a: Axes, b: Axes) -> Offsets
        ensures { offsets_left result ≡ cross_seq a b }
    {
        if a.fit() && b.fit() {
            let lowest = a.lowest();
            return Offsets {
                lowest,
                end: b.end(),
                next: Some(lowest),
            };
        }
        Offsets::none()
    }

    // Those of a block with itself that are after (0, 0, 0).
    #[tactic(auto, using(crate::proofs::Sequence::axes_fit), unfolding(crate::specs::Offsets::auto_seq, crate::specs::Offsets::cross_seq))]
    pub fn auto(a: Axes) -> Offsets
        ensures { offsets_left result ≡ auto_seq a }
    {
        if a.fit() {
            let (lowest, end) = (a.lowest(), a.end());
            let next = Offset { z: 0, y: 0, x: 0 }.after(lowest, end);
            return Offsets { lowest, end, next };
        }
        Offsets::none()
    }

    // How many are left.
    fn count_left(&self) -> usize
        ensures { result ≡ length (offsets_left self.now) }
    {
        match self.next {
            Some(o) => o.count_left(self.lowest, self.end),
            None => 0,
        }
    }
}

impl Iterator for Offsets {
    ghost use Rattle.std.specs.Iterator.{YieldsFirstBy, item_count};
    ghost use Rattle.idx_3d_offset.specs.Walk.{offsets_left};

    type Item = Idx3DOffset;

    ghost next_gives = { YieldsFirstBy idx_of offsets_left };

    ghost remaining = { item_count offsets_left };

    fn next(&mut self) -> Option<Idx3DOffset> {
        let o = self.next?;
        self.next = o.after(self.lowest, self.end);
        Some(o.handed_out())
    }
}

// How many offsets two blocks have.
pub fn cross_len(a: Axes, b: Axes) -> usize
    ensures { result ≡ length (cross_seq a b) }
{
    Offsets::cross(a, b).count_left()
}

// How many of a block's offsets with itself are after (0, 0, 0).
pub fn auto_len(a: Axes) -> usize
    ensures { result ≡ length (auto_seq a) }
{
    Offsets::auto(a).count_left()
}
