// A corpus in one lent room of cells, its words one behind the other.
#![tactic(auto)]

ghost use Rattle.std.specs.Prelude.{◌≡◌, ◌<◌, length};
ghost use Rattle.runs.specs.Parts.{nth};
ghost use Rattle.cells.specs.Cells.{cells};
ghost use Rattle.word.specs.Layout.{symbol_in, corpus, entry_at, Words, Placed, Found};

// `count` words whose places stand from the cell `starts` on, and who lie from the cell `low` up to
// `top`, with gaps between them where they were rewritten. `live` is how many symbols they have.
#[derive(Clone, Copy)]
pub struct WordSet {
    pub starts: usize,
    pub count: usize,
    pub low: usize,
    pub top: usize,
    pub live: usize,
}

// The cell of a word's first symbol, and how many symbols it has.
// Stays: a struct beside vocab::Place: this one is of cells, that one of bytes.
#[derive(Clone, Copy)]
pub struct Span {
    pub start: usize,
    pub length: usize,
}

// The symbol in a cell.
#[tactic(auto, using(crate::proofs::Views::symbol_of))]
pub fn symbol(room: &[u8], at: usize) -> u32
    requires { at < length (cells room.now) }
    ensures { result ≡ symbol_in (nth (cells room.now) at) }
{
    (cells::cell(room, at) % 0x1_0000_0000) as u32
}

// The cell that word k begins at.
// Stays: `Words` in each clause: it ties the numbers of a set to the cells of a lent room.
pub fn place(room: &[u8], w: WordSet, k: usize) -> usize
    requires words { Words w (cells room.now) }
    requires k_lt_count { k < w.count }
    ensures { Placed w k (cells room.now) result }
{
    cells::cell(room, w.starts + k) as usize
}

// Where the symbols of word k stand.
pub fn word(room: &[u8], w: WordSet, k: usize) -> Span
    requires words { Words w (cells room.now) }
    requires k_lt_count { k < w.count }
    ensures { Found w k (cells room.now) result }
{
    let s = place(room, w, k);
    let n = cells::cell(room, s + 1) as usize;
    Span {
        start: s + 2,
        length: n,
    }
}

// The frequency of word k.
#[tactic(auto, using(crate::proofs::Sets::frequency_read))]
pub fn frequency(room: &[u8], w: WordSet, k: usize) -> u64
    requires words { Words w (cells room.now) }
    requires k_lt_count { k < w.count }
    ensures { result ≡ (entry_at (corpus (cells room.now) w.starts w.count) k).frequency }
{
    let first = place(room, w, k);
    cells::cell(room, first)
}
