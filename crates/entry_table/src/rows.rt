// The rows of the table: counted, written, and found by index; and the check that fills a caller's table.
ghost use Rattle.std.specs.Prelude.{◌≡◌, ◌+◌, ◌*◌, ◌^◌, ◌<◌, ◌≤◌, length};
ghost use Rattle.transaction.specs.Answer.{memo_most};
ghost use Rattle.entry_table.specs.Table.{filled, tabled};
ghost use Rattle.std.specs.Iterator.{at_most};
ghost use Rattle.entry_walk.specs.code.Walk.{ahead};
ghost use Rattle.entry_table.specs.code.Rows.{put_row, Begins, NextRow, Counts, Finds, Puts};

use crate::ROW_NUMBERS;
use entry_walk::{Advance, Cursor, Row, steps};
use wire::{Refusal, Rule};

// The rows of an accepted transaction's entries, in byte order.
#[derive(Drop)]
struct Entries<'a> {
    bytes: &'a [u8],
    type_id: u32,
    cursor: Cursor,
}

impl<'a> Entries<'a> {
    fn new(bytes: &'a [u8], type_id: u32) -> Entries<'a>
        ensures { Begins bytes.now type_id result }
    {
        Entries {
            bytes,
            type_id,
            cursor: steps::first(),
        }
    }
}

impl<'a> Iterator for Entries<'a> {
    type Item = Row;

    ghost next_gives = { NextRow };

    ghost remaining = { λ e. at_most (ahead e.cursor) };

    // Inlined like the steps, so that what takes the rows keeps the cursor in registers.
    #[inline(always)]
    fn next(&mut self) -> Option<Row> {
        loop {
            match steps::advance(self.bytes, self.type_id, self.cursor) {
                Advance::Done => {
                    return None;
                }
                Advance::Moved(next) => {
                    self.cursor = next;
                }
                Advance::Found(row, next) => {
                    self.cursor = next;
                    return Some(row);
                }
            }
        }
    }
}

// The number of entries, if there is room for that many.
fn count(s: &[u8], type_id: u32, room: usize) -> Option<usize>
    requires { room + 1 < 2 ^ 64 }
    ensures { Counts room type_id s.now result }
{
    let rows = Entries::new(s, type_id).take(room + 1).count();
    (rows <= room).then_some(rows)
}

// Entry `n`, counted from 0.
pub fn find(s: &[u8], type_id: u32, n: u64) -> Option<Row>
    ensures { Finds n type_id s.now result }
{
    Entries::new(s, type_id).nth(n as usize)
}

// Stores row `i`, as three integers: kind, start, length.
fn put_row(table: &mut [u32], i: usize, row: Row)
    requires { 3 * i + 3 ≤ length table.old }
    ensures { table.new ≡ put_row i row table.old }
{
    let at = ROW_NUMBERS * i;
    let numbers = [
        row.kind,
        (row.start & 0xffff_ffff) as u32,
        (row.end.saturating_sub(row.start) & 0xffff_ffff) as u32,
    ];
    table[at..at + ROW_NUMBERS].copy_from_slice(&numbers);
}

// Stores the first `count` rows, for which there is room.
fn put_rows(s: &[u8], type_id: u32, count: usize, table: &mut [u32])
    requires { 3 * count ≤ length table.old }
    ensures { Puts count type_id s.now table.old table.new }
{
    for (i, row) in (0..count).zip(Entries::new(s, type_id)) {
        put_row(table, i, row);
    }
}

// Checks the bytes and writes a row of three integers for each entry. A memo has at most `most` bytes.
fn check_table_within(s: &[u8], table: &mut [u32], most: u64) -> Result<(usize, usize), Refusal>
    ensures { filled result table.new ≡ tabled most s.now table.old }
{
    let (layout, end) = checker::check::check_within(s, most)?;
    let room = table.len() / ROW_NUMBERS;
    let rows = count(s, layout.type_id, room).ok_or(wire::refuse(Rule::NoRoom, 0))?;
    put_rows(s, layout.type_id, rows, table);
    Ok((rows, end))
}

pub fn check_table(s: &[u8], table: &mut [u32]) -> Result<(usize, usize), Refusal>
    ensures { filled result table.new ≡ tabled memo_most s.now table.old }
{
    check_table_within(s, table, transaction::MEMO_MOST)
}
