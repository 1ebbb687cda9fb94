// The chunks, and the saved rows of sf, of the open obligations: a table of each, with as many entries for every place as an obligation may
// have chunks, or a world rows of sf; and what a move makes of them and of the rows of facts.
ghost use Rattle.std.specs.Prelude.{◌≡◌, ◌+◌, ◌-◌, ◌*◌, ◌<◌, set};
ghost use Rattle.facts.specs.Rows.{put_sf};
ghost use Rattle.machine.specs.Change.{chunk_count};
ghost use Rattle.scope.specs.Limits.{most_principals, most_open, most_chunks};
ghost use Rattle.machine.specs.Tables.{places, block, top_chunk, split_chunks, case_chunks, chunks_after, saved_after, rows_after};

use crate::{CHUNKS, HELD, Obligation, SAVED};
use common::{put_at, value_at};
use facts::{Facts, PRINCIPALS, Row};
use moves::Move;
use steps::World;

// The entry of chunk number i of the obligation at a place. Below, a table of chunks and a place in it stand apart: `case` writes two places.
fn entry_of(place: u16, i: u16) -> usize
    ensures { result ≡ place * most_chunks + i }
{
    usize::from(place) * CHUNKS + usize::from(i)
}

#[tactic(auto, unfolding(crate::specs::Tables::top_chunk))]
pub(crate) fn top_chunk(chunks: &[u16; HELD], place: u16, o: Obligation) -> u16
    ensures { result ≡ top_chunk chunks.now place o.phase }
{
    value_at(chunks, entry_of(place, o.top_place()), 0)
}

fn put_chunk(chunks: &mut [u16; HELD], place: u16, i: u16, f: u16)
    ensures { chunks.new ≡ set chunks.old (place * most_chunks + i) f }
{
    put_at(chunks, entry_of(place, i), f);
}

// Of n chunks, two in the topmost one's place, f on top of h.
#[tactic(auto, unfolding(crate::specs::Tables::split_chunks))]
fn split_top(chunks: &mut [u16; HELD], place: u16, n: u16, f: u16, h: u16)
    ensures { chunks.new ≡ split_chunks chunks.old place n f h }
{
    put_chunk(chunks, place, n.saturating_sub(1), h);
    put_chunk(chunks, place, n, f);
}

// The same chunks one place above, and another topmost one in each.
fn case_top(chunks: &mut [u16; HELD], place: u16, n: u16, f: u16, h: u16)
    requires { place < most_open }
    ensures { chunks.new ≡ case_chunks chunks.old place n f h }
{
    let at = usize::from(place) * CHUNKS;
    let i = n.saturating_sub(1);
    chunks.copy_within(at..at + CHUNKS, at + CHUNKS);
    put_chunk(chunks, place, i, h);
    put_chunk(chunks, place + 1, i, f);
}

#[tactic(auto, unfolding(crate::specs::Tables::chunks_after))]
pub(crate) fn move_chunks(chunks: &mut [u16; HELD], m: Move, o: Obligation, place: u16)
    requires { place < most_open }
    ensures { chunks.new ≡ chunks_after m (chunk_count o.phase) place chunks.old }
{
    let n = o.chunk_count();
    match m {
        Move::Less(f, _) => put_chunk(chunks, place, 0, f),
        Move::Split(f, h) => split_top(chunks, place, n, f, h),
        Move::Case(f, h) => case_top(chunks, place, n, f, h),
        _ => {}
    }
}

// Where one more is open, the one below it waits with the rows of sf of its newest world.
pub(crate) fn save_rows(
    saved: &mut [Row; SAVED],
    facts: &Facts,
    o: Obligation,
    opened: u16,
    more: u16,
)
    requires { opened < places }
    ensures { saved.new ≡ saved_after opened more facts.now.rows o.worlds saved.old }
{
    if opened < more {
        let at = usize::from(opened.saturating_sub(1)) * PRINCIPALS;
        let kept = facts.sf_rows(World(o.worlds.saturating_sub(1)));
        for c in 0..PRINCIPALS {
            saved[at + c] = kept[c];
        }
    }
}

// The saved rows of sf of the obligation that is current next.
fn put_back(facts: &mut Facts, saved: &[Row; SAVED], next: Obligation, below: u16)
    requires { below < places }
    ensures { facts.new.rows ≡ put_sf facts.old.rows (next.worlds - 1) (block most_principals saved.now below) }
{
    let at = usize::from(below) * PRINCIPALS;
    let mut kept = [0; PRINCIPALS];
    for c in 0..PRINCIPALS {
        kept[c] = saved[at + c];
    }
    facts.put_sf(World(next.worlds.saturating_sub(1)), kept);
}

// The rows of facts: the saved rows of sf, a new world, or a note. What it reads and writes comes one by one, for the walk lends each of its
// tables by itself.
#[tactic(auto, unfolding(crate::specs::Tables::rows_after))]
pub(crate) fn move_rows(
    facts: &mut Facts,
    saved: &[Row; SAVED],
    unit: bool,
    m: Move,
    o: Obligation,
    next: Obligation,
    below: u16,
)
    requires { below < places }
    ensures { facts.new.rows ≡ rows_after unit m o next (block most_principals saved.now below) facts.old.rows }
{
    match m {
        Move::Close => put_back(facts, saved, next, below),
        Move::Less(_, _) => facts.grow_le(o.goal().at, World(o.worlds)),
        Move::Speak(a, _) => facts.grow_by(unit, a, o.goal().at, World(o.worlds)),
        Move::Note(a, b) => facts.add_note(World(o.worlds.saturating_sub(1)), a, b),
        _ => {}
    }
}
