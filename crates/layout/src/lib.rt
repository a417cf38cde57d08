// Where everything lies in the work room: the one place that says it.
//
// The room is a list of cells of 64 bits. The words stand at its front from seeding to the end of
// training; behind them each stage has regions of its own, over those of the stage before.
#![tactic(auto)]

ghost use Rattle.std.specs.Prelude.{◌≡◌, ◌≤◌};
ghost use Rattle.layout.specs.Layout.{FewUnits, words_at, units_at, table_at, slots_for, spellings_for, IndexSize};

// No table has more distinct units: 1,114,112 code points, and 256 bytes.
const MOST_UNITS: usize = 1114368;

// Where the words begin, behind a place for each.
// Stays: `FewUnits` in each clause: a type with it would ask more of callers than a number does.
pub fn words_at(units: usize) -> usize
    requires { FewUnits units }
    ensures { result ≡ words_at units }
{
    units / 2 + 1
}

// Where seeding puts the distinct units in order, behind the words.
pub fn units_at(units: usize) -> usize
    requires { FewUnits units }
    ensures { result ≡ units_at units }
{
    words_at(units) + 2 * units + 2
}

// Where seeding has its tables: first of the units met, then of the spellings.
pub fn table_at(units: usize) -> usize
    requires { FewUnits units }
    ensures { result ≡ table_at units }
{
    units_at(units) + 2 * units
}

// How many slots the table of units met has: twice as many as there can be.
#[tactic(auto, using(crate::proofs::Fits::slots_least))]
pub fn slots_for(units: usize) -> usize
    requires { FewUnits units }
    ensures { result ≡ slots_for units }
{
    2 * units.min(MOST_UNITS) + 1
}

// How many slots the table of spellings has, where so many seeds come first: twice as many as there
// can be. A seed that comes first has four decorated forms, itself among them.
pub fn spellings_for(first: usize, symbols: usize) -> usize
    requires first_bound { first ≤ 1114368 }
    requires symbols_bound { symbols ≤ 65536 }
    ensures { result ≡ spellings_for first symbols }
{
    8 * first + 2 * symbols + 1
}

// How many slots the index of pairs has: a power of two, above three for each unit.
pub fn index_for(units: usize) -> usize
    requires { FewUnits units }
    ensures { IndexSize units result }
{
    (3 * units + 1).next_power_of_two()
}
