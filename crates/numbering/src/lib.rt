// Which earlier row of a table, if any, is equal to this one. The caller lends the slots in which the rows are kept: all 0 at first, then
// each row in turn is looked for and, where it is not there, kept.
#![tactic(auto)]

ghost use Rattle.std.specs.Prelude.{◌≡◌, min};
ghost use Rattle.scope.specs.Limits.{most_formulas};
ghost use Rattle.scope.specs.Call.Tables.{unpack, form_entry};
ghost use Rattle.scope.specs.File.Refusals.{same_row};
ghost use Rattle.common.specs.Rows.{as_row};
ghost use Rattle.classes.specs.Rows.{form_row};
ghost use Rattle.numbering.specs.Slots.{head_of, key_of, place_in, kept_at, earlier_at, earlier_of};
ghost use Rattle.numbering.specs.Repeats.{first_repeat};
ghost use Rattle.numbering.specs.Given.{given_at, written_at};

use common::{MOST_FORMULAS, Row, value_at};

// The slots: the heads, and two under each row.
const HEADS: usize = 1024;

pub const SLOTS: usize = HEADS + 2 * (MOST_FORMULAS as usize);

// No way from a head on has more rows than there are.
const TURNS: usize = MOST_FORMULAS as usize + 1;

// The number of the row that is equal; or the slot in which it would stand. Neither is a failure, so it is no Result.
#[derive(Clone, Copy)]
pub enum Place {
    Taken(u16),
    Free(usize),
}

impl Place {
    // The number of the row that is there.
    #[tactic(auto, unfolding(crate::specs::Slots::earlier_at))]
    fn number(self) -> Option<u16>
        ensures { result ≡ earlier_at self }
    {
        match self {
            Place::Taken(j) => Some(j),
            Place::Free(_) => None,
        }
    }
}

#[tactic(auto, unfolding(crate::specs::Slots::head_of))]
fn head_of(row: Row) -> usize
    ensures { result ≡ head_of (as_row row) }
{
    let left = usize::from(row.left);
    let right = usize::from(row.right);
    let kind = usize::from(row.kind);
    (left * 40503 + right * 30029 + kind * 9973) / 64 % HEADS
}

#[tactic(auto, unfolding(crate::specs::Slots::key_of))]
fn key_of(row: Row) -> usize
    ensures { result ≡ key_of (as_row row) }
{
    usize::from(row.left) + usize::from(row.right) * 65536 + usize::from(row.kind) * 4294967296
}

// Whether row number i of the table is this one: its numbers are read one by one, up to the first that differs.
#[tactic(auto, unfolding(scope::specs::File::Refusals::same_row, scope::specs::Logic::Form::both))]
fn is_row(forms: &[u16], i: u16, row: Row) -> bool
    ensures { result ≡ same_row (form_row forms.now i) (as_row row) }
{
    let at = 3 * usize::from(i);
    value_at(forms, at, 0) == row.kind
        && value_at(forms, at + 1, 0) == row.left
        && value_at(forms, at + 2, 0) == row.right
}

// Where a row is among the rows that the slots keep. The table is lent beside them: its owner writes rows between two calls.
pub fn find_row(forms: &[u16], slots: &[u16; SLOTS], row: Row) -> Place
    ensures { result ≡ place_in forms.now slots.now (as_row row) }
{
    let mut key = key_of(row);
    let mut slot = head_of(row);
    for turn in 0..TURNS {
        let entry = value_at(slots, slot, 0);
        if entry == 0 {
            return Place::Free(slot);
        }
        let i = entry - 1;
        if is_row(forms, i, row) {
            return Place::Taken(i);
        }
        slot = HEADS + 2 * usize::from(i) + key % 2;
        key /= 2;
    }
    Place::Free(slot)
}

// Keeps row number i at the place at which it was looked for.
pub fn keep_row(slots: &mut [u16; SLOTS], place: Place, i: u16)
    ensures { slots.new ≡ kept_at place i slots.old }
{
    let Place::Free(slot) = place else {
        return;
    };
    if i < MOST_FORMULAS {
        common::put_at(slots, slot, i + 1);
    }
}

// Looks for a row, and keeps it as row number i where it is not there.
pub fn enter_row(forms: &[u16], slots: &mut [u16; SLOTS], i: u16, row: Row) -> Option<u16>
    ensures value { result ≡ earlier_at (place_in forms.now slots.old (as_row row)) }
    ensures slots_after { slots.new ≡ kept_at (place_in forms.now slots.old (as_row row)) i slots.old }
{
    let place = find_row(forms, slots, row);
    keep_row(slots, place, i);
    place.number()
}

// The first of a table's rows that repeats an earlier one.
pub fn first_repeat(forms: &[u16], count: u16) -> Option<u16>
    ensures { result ≡ earlier_of (first_repeat (unpack form_entry (min count most_formulas) forms.now)) }
{
    let most = count.min(MOST_FORMULAS);
    let mut slots = [0u16; SLOTS];
    for i in 0..most {
        let got = enter_row(forms, &mut slots, i, common::row_at(forms, i));
        if got.is_some() {
            return Some(i);
        }
    }
    None
}

// The number of a row in a table of `count` rows, to which it is added where it is not there; none where there is no room for it.
pub fn number_row(forms: &mut [u16], slots: &mut [u16; SLOTS], count: u16, row: Row) -> Option<u16>
    ensures value { result ≡ given_at (place_in forms.old slots.old (as_row row)) count }
    ensures forms_after { forms.new ≡ written_at (place_in forms.old slots.old (as_row row)) count (as_row row) forms.old }
    ensures slots_after { slots.new ≡ kept_at (place_in forms.old slots.old (as_row row)) count slots.old }
{
    let place = find_row(forms, slots, row);
    if let Place::Taken(j) = place {
        return Some(j);
    }
    if MOST_FORMULAS <= count {
        return None;
    }
    common::put_row(forms, count, row);
    keep_row(slots, place, count);
    Some(count)
}
