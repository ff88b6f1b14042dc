// The table of a bundle: 1 to 4, and its rows.
// Words are cast to `usize` by `as`: both have 64 bits here, and std has no `From` between them.
ghost use Rattle.std.specs.Prelude.{◌≡◌, ◌≤◌, IfOk, length};
ghost use Rattle.wire.specs.Stop.{◌⨾◌};
ghost use Rattle.wire.specs.Refusals.{stop_of};
ghost use Rattle.bundle.specs.Table.{count, row_start, table_end};
ghost use Rattle.bundle.specs.Check.{bad_row, head_stop, table_stop};
ghost use Rattle.bundle.specs.Accepted.{RowFits};
ghost use Rattle.bundle_reader.specs.Examined.{filled, held_row, row_held};

use bundle::EntryRecord;
use wire::{Reason, Refusal};

// A table: how many rows it has, and where it ends.
#[derive(Clone, Copy)]
pub(crate) struct Table {
    pub(crate) count: usize,
    pub(crate) end: usize,
}

// 1 LENGTH, 2 MAGIC, 3 COUNT, or the entry count.
fn head(s: &[u8]) -> Result<usize, Refusal>
    ensures stop { stop_of result ≡ head_stop s.now }
    ensures count { IfOk result (λ n. n ≡ count s.now) }
{
    if 1073741824 < s.len() {
        return Err(Reason::Length.at(0));
    }
    if s.len() < 24 {
        return Err(Reason::Magic.at(0));
    }
    if !wire_read::same_bytes(&s[..24], b"__CLANG_OFFLOAD_BUNDLE__") {
        return Err(Reason::Magic.at(0));
    }
    if s.len() < 32 {
        return Err(Reason::Count.at(0));
    }
    if 64 < wire_read::word_at::<8>(s, 24) {
        return Err(Reason::Count.at(0));
    }
    Ok(wire_read::word_at::<8>(s, 24) as usize)
}

// 4 TABLE, of the row that starts at `from`.
fn bad_row(s: &[u8], from: usize) -> bool
    ensures { result ≡ bad_row s.now from }
{
    if s.len() < from || s.len() - from < 24 {
        return true;
    }
    let len = wire_read::word_at::<8>(s, from + 16);
    len == 0 || 256 < len || ((s.len() - from - 24) as u64) < len
}

fn row_at(s: &[u8], at: usize) -> EntryRecord
    requires { RowFits s.now at }
    ensures { result ≡ held_row s.now at }
{
    EntryRecord {
        id_start: at + 24,
        id_len: wire_read::word_at::<8>(s, at + 16) as usize,
        image_start: wire_read::word_at::<8>(s, at) as usize,
        image_len: wire_read::word_at::<8>(s, at + 8) as usize,
    }
}

// 1 to 4, or the table, with its rows in `rows`.
pub(crate) fn read_table(s: &[u8], rows: &mut [EntryRecord]) -> Result<Table, Refusal>
    requires { count s.now ≤ 64 → count s.now ≤ length rows.old }
    ensures stop { stop_of result ≡ head_stop s.now ⨾ table_stop s.now }
    ensures table { IfOk result (λ t. t ≡ record { count = count s.now; end = table_end s.now }) }
    ensures rows_after { IfOk result (λ t. rows.new ≡ filled rows.old (count s.now) (row_held s.now)) }
{
    let count = head(s)?;
    let mut end = 32;
    for i in 0..count {
        if bad_row(s, end) {
            return Err(Reason::Table.at(i));
        }
        let row = row_at(s, end);
        rows[i] = row;
        end = row.id_start + row.id_len;
    }
    Ok(Table { count, end })
}
