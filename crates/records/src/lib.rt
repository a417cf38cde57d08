// Records of eight cells in the work room: a field of one, read and put.
#![tactic(auto)]

ghost use Rattle.std.specs.Prelude.{◌≡◌};
ghost use Rattle.cells.specs.Cells.{cells};
ghost use Rattle.records.specs.Records.{field, CanPut, FieldPut, Stored, Within};

// Where records stand: at most so many, behind a head of three cells, from the cell `base` on.
#[derive(Clone, Copy)]
pub struct Arena {
    pub base: usize,
    pub most: usize,
}

// The field f of the record r.
#[tactic(auto, using(crate::proofs::Laws::field_is))]
pub fn get_field(room: &[u8], a: Arena, r: usize, f: usize) -> u64
    requires { Within a.base a.most r f (cells room.now) }
    ensures { result ≡ field a.base (cells room.now) r f }
{
    cells::cell(room, a.base + 3 + r * 8 + f)
}

// Puts v in the field f of the record r, whatever stands there.
pub fn store(room: &mut [u8], a: Arena, r: usize, f: usize, v: u64)
    requires { Within a.base a.most r f (cells room.old) }
    ensures { Stored a.base r f v (cells room.old) (cells room.new) }
{
    cells::put_cell(room, a.base + 3 + r * 8 + f, v);
}

// Puts v in a field of a live record.
pub fn put_field(room: &mut [u8], a: Arena, r: usize, f: usize, v: u64)
    requires { CanPut a.base a.most r f (cells room.old) }
    ensures { FieldPut a.base a.most r f v (cells room.old) (cells room.new) }
{
    store(room, a, r, f, v);
}
