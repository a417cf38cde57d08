// The next merge by the queue: the head is taken; one that is stale is corrected and waits again, or is dropped; one
// whose piece is over-long is skipped for good.
#![tactic(auto)]

ghost use Rattle.std.specs.Prelude.{◌≡◌, ◌+◌, ◌*◌, ◌<◌, ◌≤◌, length};
ghost use Rattle.cells.specs.Cells.{cells};
ghost use Rattle.intern.specs.Pieces.{Held};
ghost use Rattle.intern.specs.Pieces as rooms;
ghost use Rattle.queue.specs.Heap.{Heap};
ghost use Rattle.states.specs.State.{left_of, right_of, OfPair};
ghost use Rattle.pairs.specs.View.{state};
ghost use Rattle.pairs.specs.Pairs.{Pairing};
ghost use Rattle.choosing.specs.Choosing.{CanChoose, NextDone};
ghost use Rattle.choosing.specs.Turns.{Corrected, Counts, Blocked, TurnDone};

use engine::Engine;
use lengths::Pieces;
use marks::Mark;
use pairs::{Pair, Pairs};
use queue::Candidate;
use std::ops::ControlFlow;

// A pair with its count, taken out of the queue of the engine.
#[derive(Clone, Copy)]
pub struct Next {
    pub engine: Engine,
    pub left: u32,
    pub right: u32,
    pub count: u64,
}

// The left symbol of a pair.
#[tactic(auto, using(states::proofs::Keys::pair_pos, crate::proofs::Small::left_is))]
fn left_of(key: u64) -> u32
    requires { OfPair key }
    ensures { result ≡ left_of key }
{
    ((key - 1) / 0x1_0000_0000) as u32
}

// The right symbol of a pair.
#[tactic(auto, using(states::proofs::Keys::pair_pos, crate::proofs::Small::right_is))]
fn right_of(key: u64) -> u32
    requires { OfPair key }
    ensures { result ≡ right_of key }
{
    ((key - 1) % 0x1_0000_0000) as u32
}

// The count of a pair now. A pair without a record occurs nowhere.
#[tactic(auto, using(crate::proofs::Small::uncounted))]
fn live_count(room: &[u8], p: Pairs, key: u64) -> u64
    requires { (Pairing p (cells room.now)) × (0 < key) }
    ensures { result ≡ (state p (cells room.now) key).count }
{
    match pairs::find(room, p, key) {
        Some(number) => fields::count(
            room,
            Pair {
                pairs: p,
                key,
                number,
            },
        ),
        None => 0,
    }
}

// A stale entry: dropped where its pair is gone, else among the m candidates again with its count now. How many
// candidates wait.
fn correct(room: &mut [u8], q: usize, m: usize, live: u64, key: u64) -> usize
    requires { (Heap q m (cells room.old)) × (q + 2 * m + 2 ≤ length (cells room.old)) }
    ensures { Corrected q m live key (cells room.old) (cells room.new) result }
{
    if live == 0 {
        return m;
    }
    queue::push(room, q, m, Candidate { count: live, key });
    m + 1
}

// "An over-long pair is skipped for good": its mark is set.
fn block(room: &mut [u8], p: Pairs, key: u64)
    requires { Counts p key (cells room.old) }
    ensures { Blocked p key (cells room.old) (cells room.new) }
{
    let pair = Pair {
        pairs: p,
        key,
        number: pairs::find(room, p, key).unwrap(),
    };
    let m = marks::set(Mark::Blocked, fields::marks(room, pair));
    fields::set_marks(room, pair, m);
}

// Takes the head of the queue. The tests are in this order: stale, the minimum, the length. The run goes on with the
// engine, or ends with an answer.
fn take_head(
    room: &mut [u8],
    g: Engine,
    p: Pieces,
    prefix: &[u8],
    limit: u64,
    least: u64,
) -> ControlFlow<Option<Next>, Engine>
    requires held { Held p.filled.count p.filled.used p.bytes.now p.ends.now }
    requires can_choose { CanChoose g p.filled.count prefix.now limit
        (rooms.pieces p.bytes.now p.ends.now p.filled.count) (cells room.old) }
    requires le_least { (1 ≤ least) × (0 < g.waiting) }
    ensures { TurnDone result g p.entry.filled.count prefix.now limit least
        (rooms.pieces p.entry.bytes.now p.entry.ends.now p.entry.filled.count)
        (cells room.old) (cells room.new) }
{
    let m = g.waiting - 1;
    let e = queue::pop(room, g.queue, g.waiting);
    let live = live_count(room, g.pairs, e.key);
    if live != e.count {
        let n = correct(room, g.queue, m, live, e.key);
        return ControlFlow::Continue(Engine {
            waiting: n,
            turns: g.turns - 1,
            ..g
        });
    }
    if live < least {
        return ControlFlow::Break(None);
    }
    let left = left_of(e.key);
    let right = right_of(e.key);
    if lengths::is_within(p, prefix, limit, left, right) {
        let engine = Engine { waiting: m, ..g };
        return ControlFlow::Break(Some(Next {
            engine,
            left,
            right,
            count: live,
        }));
    }
    block(room, g.pairs, e.key);
    ControlFlow::Continue(Engine {
        waiting: m,
        turns: g.turns - 1,
        ..g
    })
}

// The pair that is merged next: of those whose piece is within the limit the one with the greatest count, among
// equals the lowest, if its count is at least `least`.
pub fn next_merge(
    room: &mut [u8],
    g: Engine,
    p: Pieces,
    prefix: &[u8],
    limit: u64,
    least: u64,
) -> Option<Next>
    requires held { Held p.filled.count p.filled.used p.bytes.now p.ends.now }
    requires can_choose { CanChoose g p.filled.count prefix.now limit
        (rooms.pieces p.bytes.now p.ends.now p.filled.count) (cells room.old) }
    requires le_least { 1 ≤ least }
    ensures { NextDone result g p.entry.filled.count prefix.now limit least
        (rooms.pieces p.entry.bytes.now p.entry.ends.now p.entry.filled.count)
        (cells room.old) (cells room.new) }
{
    let mut h = g;
    while 0 < h.waiting {
        match take_head(room, h, p, prefix, limit, least) {
            ControlFlow::Continue(next) => h = next,
            ControlFlow::Break(answer) => return answer,
        }
    }
    None
}
