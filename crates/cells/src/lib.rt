// A run as a room of 64-bit cells: cell i is the number of 8 bytes at i * 8. Reading or putting a
// cell compiles to the machine's own load or store. And the way round cells that stand in a ring.
//
// A bound is always stated as `place < number of cells`, of several cells as `place + n ≤ number of cells`.
#![tactic(auto)]

ghost use Rattle.std.specs.Prelude.{◌≡◌, ◌+◌, ◌*◌, ◌<◌, ◌≤◌, length};
ghost use Rattle.runs.specs.Parts.{nth, part, zeros};
ghost use Rattle.cells.specs.Cells.{cells, Put, Laid};
ghost use Rattle.cells.specs.Ring.{after};

// The cell i.
#[tactic(auto, using(crate::proofs::Cells::room_laws))]
pub fn cell(room: &[u8], i: usize) -> u64
    requires { i < length (cells room.now) }
    ensures { result ≡ nth (cells room.now) i }
{
    numbers::load8(room, i * 8)
}

// Puts v in the cell i.
#[tactic(auto, using(crate::proofs::Cells::room_laws))]
pub fn put_cell(room: &mut [u8], i: usize, v: u64)
    requires { i < length (cells room.old) }
    ensures { Put room.old room.new i v }
{
    numbers::store8(room, i * 8, v);
}

// Sets n cells from `at` on to 0.
// Stays: a part by place and length, as the clauses have it (`Laid`): there is no slice of cells.
#[tactic(auto, using(crate::proofs::Cells::room_laws))]
pub fn clear_cells(room: &mut [u8], at: usize, n: usize)
    requires { at + n ≤ length (cells room.old) }
    ensures { Laid room.old room.new at (zeros (n * 8)) (zeros n) }
{
    runs::clear(room, at * 8, n * 8);
}

// Copies n cells from `from` on to `at`, where the two parts may overlap.
// Stays: places and a length, as in `clear_cells`.
#[tactic(auto, using(crate::proofs::Cells::room_laws))]
pub fn copy_cells(room: &mut [u8], at: usize, from: usize, n: usize)
    requires { (at + n ≤ length (cells room.old)) × (from + n ≤ length (cells room.old)) }
    ensures { Laid room.old room.new at (part (from * 8) (n * 8) room.old) (part from n (cells room.old)) }
{
    runs::copy_within(room, at * 8, from * 8, n * 8);
}

// Where slots stand in a room: in a ring, from the cell `base` on, `cap` of them.
#[derive(Clone, Copy)]
pub struct Ring {
    pub base: usize,
    pub cap: usize,
}

// What a search round a ring comes to: what was looked for, the vacant slot where it would go, or neither.
// Stays: an enum of its own: there are three outcomes, and `intern` acts on each.
#[derive(Clone, Copy)]
pub enum Found {
    At(usize),
    Vacant(usize),
    Full,
}

// The slot after i, of `cap` slots in a ring.
#[tactic(auto, using(crate::proofs::Rings::ring_laws))]
pub fn next(cap: usize, i: usize) -> usize
    requires { i < cap }
    ensures { (result ≡ after cap i) × (result < cap) }
{
    if i + 1 == cap { 0 } else { i + 1 }
}
