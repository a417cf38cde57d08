// The pieces that do not come from a word's place: the byte values, and the initial alphabet, each
// spelling interned as it stands.
#![tactic(auto)]

ghost use Rattle.std.specs.Prelude.{◌≡◌, true, [], ◌∷◌};
ghost use Rattle.cells.specs.Cells.{cells};
ghost use Rattle.rule.specs.Shapes.{parts_by, shaped};
ghost use Rattle.rule.specs.Seeding.{byte_values};
ghost use Rattle.intern.specs.Intern.{CanIntern};
ghost use Rattle.alphabet.specs.Seeds.{CanSeed, Seeds};

use cells::Ring;
use error::NoRoom;
use spells::Spelling;
use vocab::Filled;

// Interns a spelling as it stands, and says how far the runs are filled then.
// Stays: the rooms apart, as in intern::intern.
pub fn intern_plain(
    room: &mut [u8],
    ring: Ring,
    pieces: &mut [u8],
    ends: &mut [u8],
    filled: Filled,
    s: &[u8],
) -> Result<Filled, NoRoom>
    requires { CanIntern ring.base ring.cap filled.count filled.used (cells room.old) pieces.old ends.old }
    ensures { Seeds result ring.base ring.cap filled.count filled.used (s.now ∷ [])
        room.old pieces.old ends.old room.new pieces.new ends.new }
{
    let spelling = Spelling {
        prefix: &[],
        unit: s,
        suffix: &[],
    };
    let interned = intern::intern(room, ring, pieces, ends, filled, spelling)?;
    Ok(interned.filled)
}

// Interns the 256 byte values.
pub fn seed_bytes(
    room: &mut [u8],
    ring: Ring,
    pieces: &mut [u8],
    ends: &mut [u8],
) -> Result<Filled, NoRoom>
    requires { CanSeed ring.base ring.cap 0 0 (byte_values 256 0) (cells room.old) pieces.old ends.old }
    ensures { Seeds result ring.base ring.cap 0 0 (byte_values 256 0)
        room.old pieces.old ends.old room.new pieces.new ends.new }
{
    let mut filled = Filled { count: 0, used: 0 };
    for b in 0..=255u8 {
        filled = intern_plain(room, ring, pieces, ends, filled, &[b])?;
    }
    Ok(filled)
}

// Interns the initial alphabet, in given order.
pub fn seed_alphabet(
    room: &mut [u8],
    ring: Ring,
    pieces: &mut [u8],
    ends: &mut [u8],
    filled: Filled,
    alphabet: &[u8],
    alphabet_ends: &[u8],
) -> Result<Filled, NoRoom>
    requires can_seed { CanSeed ring.base ring.cap filled.count filled.used
        (parts_by alphabet.now alphabet_ends.now) (cells room.old) pieces.old ends.old }
    requires alphabet_ends_value { shaped alphabet.now alphabet_ends.now ≡ true }
    ensures { Seeds result ring.base ring.cap filled.count filled.used (parts_by alphabet.now alphabet_ends.now)
        room.old pieces.old ends.old room.new pieces.new ends.new }
{
    let many = alphabet_ends.len() / 4;
    let mut so_far = filled;
    let mut last = 0;
    for k in 0..many {
        let end = vocab::end_at(alphabet_ends, k);
        so_far = intern_plain(room, ring, pieces, ends, so_far, &alphabet[last..end])?;
        last = end;
    }
    Ok(so_far)
}
