// Spellings in three parts that lie apart (prefix, unit, suffix): compared and hashed where they
// stand, so that nothing is copied before a spelling is known to be new.
#![tactic(auto)]

ghost use Rattle.std.specs.Prelude.{◌≡◌, ◌++◌, ◌<◌};
ghost use Rattle.order.specs.Order.{same};
ghost use Rattle.spells.specs.Hash.{hash_from, hash_of};

// A spelling in three parts, each of which may be empty.
#[derive(Clone, Copy)]
pub struct Spelling<'a> {
    pub prefix: &'a [u8],
    pub unit: &'a [u8],
    pub suffix: &'a [u8],
}

// Tells whether two parts end to end are the bytes of a piece.
#[tactic(auto, using(crate::proofs::Equal::front_found, crate::proofs::Equal::front_missing))]
fn equal_two(a: &[u8], b: &[u8], piece: &[u8]) -> bool
    ensures { result ≡ same (a.now ++ b.now) piece.now }
{
    match piece.strip_prefix(a) {
        Some(rest) => order::equal(b, rest),
        None => false,
    }
}

// Tells whether prefix, unit and suffix end to end are the bytes of a piece.
#[tactic(auto, using(crate::proofs::Equal::front_found, crate::proofs::Equal::front_missing))]
pub fn equal_three(spelling: Spelling, piece: &[u8]) -> bool
    ensures { result
        ≡ same (spelling.entry.prefix.now ++ (spelling.entry.unit.now ++ spelling.entry.suffix.now)) piece.now }
{
    match piece.strip_prefix(spelling.prefix) {
        Some(rest) => equal_two(spelling.unit, spelling.suffix, rest),
        None => false,
    }
}

// The hash of what was hashed to `before`, with s behind it.
#[tactic(auto, using(crate::proofs::Hash::hash_start, crate::proofs::Hash::hash_turn, crate::proofs::Hash::hash_end))]
fn hash_on(before: u64, s: &[u8]) -> u64
    requires { before < 4294967296 }
    ensures { (result ≡ hash_from before s.now) × (result < 4294967296) }
{
    let mut x = before;
    for b in s {
        x = (x * 16777619 + u64::from(*b)) % 4294967296;
    }
    x
}

// The hash of prefix, unit and suffix end to end.
#[tactic(auto, using(crate::proofs::Hash::hash_parts))]
pub fn hash_three(spelling: Spelling) -> u64
    ensures { (result
        ≡ hash_of (spelling.entry.prefix.now ++ (spelling.entry.unit.now ++ spelling.entry.suffix.now)))
        × (result < 4294967296) }
{
    let x = hash_on(2166136261, spelling.prefix);
    let y = hash_on(x, spelling.unit);
    hash_on(y, spelling.suffix)
}
