// The closed facts of a sequent, kept in rows of bits. A new world writes its own rows only, and a note only the rows of sf of its own
// world, so nothing is ever closed again, and a waiting obligation saves no more than the rows of sf of its newest world.
#![tactic(auto)]

ghost use Rattle.std.specs.Prelude.{◌≡◌, ◌+◌, ◌≤◌, get_or};
ghost use Rattle.scope.specs.Logic.Facts.{le, by, sf};
ghost use Rattle.facts.specs.Rows.{principals_max, rows_each, row_at, bit_of, one_bit, named_row, block, put_block, told};
ghost use Rattle.facts.specs.Rows.{sf_rows, put_sf, root_rows, new_world, grown_le, grown_by, noted};

use common::{MOST_PRINCIPALS, MOST_WORLDS, put_at, value_at};
use steps::{Principal, World};

// One bit for each world.
pub type Row = u64;

pub const WORLDS: usize = MOST_WORLDS as usize;

pub const PRINCIPALS: usize = MOST_PRINCIPALS as usize;

// The rows that lead to a world: one of ≤, one of its ancestors, PRINCIPALS of S, PRINCIPALS of sf. Below, how far into them each begins.
const EACH: usize = 2 + 2 * PRINCIPALS;

const LE: u16 = 0;

const UP: u16 = 1;

const BY: u16 = 2;

const SF: u16 = BY + MOST_PRINCIPALS;

pub const ROWS: usize = WORLDS * EACH;

// The rows of all worlds, one world's after another's.
#[derive(Drop)]
pub struct Facts {
    pub rows: [Row; ROWS],
}

// The place of one of the rows that lead to a world.
fn place_of(v: World, part: u16) -> usize
    ensures { result ≡ row_at v.0 part }
{
    usize::from(v.0) * EACH + usize::from(part)
}

// The bit of a number in a row, and the row with that bit alone.
#[tactic(auto, using(crate::specs::Bits::bit_shifted, crate::specs::Bits::bit_past))]
fn bit_of(row: Row, i: u16) -> bool
    ensures { result ≡ bit_of row i }
{
    i < MOST_WORLDS && (row >> i) % 2 == 1
}

#[tactic(auto, using(crate::specs::Bits::one_past))]
fn one_bit(i: u16) -> Row
    ensures { result ≡ one_bit i }
{
    if i < MOST_WORLDS { 1 << i } else { 0 }
}

impl Facts {
    // A row that leads to a world: past the last world it reads as 0.
    fn row(&self, v: World, part: u16) -> Row
        ensures { result ≡ get_or self.now.rows (row_at v.0 part) 0 }
    {
        value_at(&self.rows, place_of(v, part), 0)
    }

    // The row of S, or of sf, of a principal: no bits for a number that no principal has.
    #[tactic(auto, unfolding(crate::specs::Rows::named_row))]
    fn named_row(&self, v: World, part: u16, a: Principal) -> Row
        ensures { result ≡ named_row self.now.rows (row_at v.0 part) a.0 }
    {
        if a.0 < MOST_PRINCIPALS {
            value_at(&self.rows, place_of(v, part) + usize::from(a.0), 0)
        } else {
            0
        }
    }

    // All rows of S, or of sf, of a world: past the last world they read as 0, and are not written. They go one by one, by their
    // number: what copies in one piece asks at each call whether the two overlap, and an iterator keeps them in memory on the way.
    fn block(&self, v: World, part: u16) -> [Row; PRINCIPALS]
        requires { part + principals_max ≤ rows_each }
        ensures { result ≡ block self.now.rows (row_at v.0 part) }
    {
        let mut block = [0; PRINCIPALS];
        if v.0 < MOST_WORLDS {
            let at = place_of(v, part);
            for c in 0..PRINCIPALS {
                block[c] = self.rows[at + c];
            }
        }
        block
    }

    fn put_block(&mut self, v: World, part: u16, block: [Row; PRINCIPALS])
        requires { part + principals_max ≤ rows_each }
        ensures { self.new.rows ≡ put_block self.old.rows (row_at v.0 part) block }
    {
        if v.0 < MOST_WORLDS {
            let at = place_of(v, part);
            for c in 0..PRINCIPALS {
                self.rows[at + c] = block[c];
            }
        }
    }

    // Is u ≤ v, u S_a v, u: a sf b among the closed facts? The last two ask for a world, and for a principal: as one function they would
    // take a bare number for either.
    #[tactic(auto, unfolding(crate::specs::Rows::told))]
    pub fn has_le(&self, u: World, v: World) -> bool
        ensures { result ≡ told self.now.rows (le u.0 v.0) }
    {
        bit_of(self.row(v, LE), u.0)
    }

    #[tactic(auto, unfolding(crate::specs::Rows::told))]
    pub fn has_by(&self, a: Principal, u: World, v: World) -> bool
        ensures { result ≡ told self.now.rows (by a.0 u.0 v.0) }
    {
        bit_of(self.named_row(v, BY, a), u.0)
    }

    #[tactic(auto, unfolding(crate::specs::Rows::told))]
    pub fn has_sf(&self, u: World, a: Principal, b: Principal) -> bool
        ensures { result ≡ told self.now.rows (sf u.0 a.0 b.0) }
    {
        bit_of(self.named_row(u, SF, a), b.0)
    }

    // What a waiting obligation saves of its newest world, and gives back.
    #[tactic(auto, unfolding(crate::specs::Rows::sf_rows))]
    pub fn sf_rows(&self, m: World) -> [Row; PRINCIPALS]
        ensures { result ≡ sf_rows self.now.rows m.0 }
    {
        self.block(m, SF)
    }

    #[tactic(auto, unfolding(crate::specs::Rows::put_sf))]
    pub fn put_sf(&mut self, m: World, saved: [Row; PRINCIPALS])
        ensures { self.new.rows ≡ put_sf self.old.rows m.0 saved }
    {
        self.put_block(m, SF, saved);
    }

    // World 0 alone.
    #[tactic(auto, using(crate::specs::Fill::fill_front), unfolding(crate::specs::Fill::fill))]
    pub fn root_rows(&mut self)
        ensures { self.new.rows ≡ root_rows }
    {
        self.rows.fill(0);
        put_at(&mut self.rows, place_of(World(0), LE), 1);
        put_at(&mut self.rows, place_of(World(0), UP), 1);
        let mut own = [0; PRINCIPALS];
        for (c, row) in own.iter_mut().enumerate() {
            // A principal's number, which a u16 holds.
            *row = one_bit(c as u16);
        }
        self.put_sf(World(0), own);
    }

    // The first two rows of a new world n behind u, where `less` has the worlds that are ≤ n by it and `ways` those that lead to it, and
    // the rows of sf, which are those of u.
    #[tactic(auto, unfolding(crate::specs::Rows::new_world))]
    fn new_world(&mut self, u: World, n: World, less: Row, ways: Row)
        ensures { self.new.rows ≡ new_world self.old.rows u.0 n.0 less ways }
    {
        let own = one_bit(n.0);
        let saved = self.sf_rows(u);
        put_at(&mut self.rows, place_of(n, LE), less | own);
        put_at(&mut self.rows, place_of(n, UP), ways | own);
        self.put_sf(n, saved);
    }

    // A new world n behind u by u ≤ n: what S leads to u it leads to n.
    #[tactic(auto, using(crate::proofs::Made::made_le))]
    pub fn grow_le(&mut self, u: World, n: World)
        ensures { self.new.rows ≡ grown_le self.old.rows u.0 n.0 }
    {
        let less = self.row(u, LE);
        let ways = self.row(u, UP);
        let over = self.block(u, BY);
        self.new_world(u, n, less, ways);
        self.put_block(n, BY, over);
    }

    // A new world n behind u by u S_a n; with unit u ≤ n too, and what S leads to u it leads to n.
    #[tactic(auto, unfolding(crate::specs::Fill::fill))]
    pub fn grow_by(&mut self, unit: bool, a: Principal, u: World, n: World)
        ensures { self.new.rows ≡ grown_by unit self.old.rows a.0 u.0 n.0 }
    {
        let saved = self.sf_rows(u);
        let ways = self.row(u, UP);
        let (below, mut seen) = if unit {
            (self.row(u, LE), self.block(u, BY))
        } else {
            (0, [0; PRINCIPALS])
        };
        for (c, row) in seen.iter_mut().enumerate() {
            if bit_of(saved[c], a.0) {
                *row |= ways;
            }
        }
        self.new_world(u, n, below, ways);
        self.put_block(n, BY, seen);
    }

    // m: a sf b noted at the newest world m.
    #[tactic(auto, unfolding(crate::specs::Fill::fill))]
    pub fn add_note(&mut self, m: World, a: Principal, b: Principal)
        ensures { self.new.rows ≡ noted self.old.rows m.0 a.0 b.0 }
    {
        let mut rows = self.sf_rows(m);
        let more = value_at(&rows, usize::from(b.0), 0);
        for row in rows.iter_mut() {
            if bit_of(*row, a.0) {
                *row |= more;
            }
        }
        self.put_sf(m, rows);
    }
}
