// 5 to 8 and 21: of a bundle's rows, and of entry records.
ghost use Rattle.std.specs.Prelude.{◌≡◌, ℕ, ◌+◌, ◌*◌, ◌<◌, ◌≤◌, IfOk, length, ltb};
ghost use Rattle.wire.specs.Limit.{limit};
ghost use Rattle.wire.specs.First.{first};
ghost use Rattle.wire.specs.Stop.{◌⨾◌, stop_if, stop_at};
ghost use Rattle.wire.specs.Refusals.{stop_of};
ghost use Rattle.entry_id.specs.Rules.{rules_of};
ghost use Rattle.bundle.specs.Table.{count, row};
ghost use Rattle.bundle.specs.Check.{bad_id, outside, overlap_stop, rows_stop, bundle_stop};
ghost use Rattle.bundle.specs.Records.{record_at, rows_of, bad_part, records_stop};
ghost use Rattle.bundle_reader.specs.Examined.{filled, form, row_held, forms_of, forms_of_records};
ghost use Rattle.bundle_reader.specs.Slots.{first_found};

use crate::id::CanonicalId;
use crate::overlap::check_overlaps;
use crate::relations::check_relations;
use crate::table::read_table;
use bundle::EntryRecord;
use entry_id::Reading;
use wire::{Reason, Refusal};

// 6 RANGE, of a row's image, in a container of `len` bytes. The sum is never made, so it cannot wrap.
fn outside_row(row: EntryRecord, end: usize, len: usize) -> bool
    ensures { result ≡ outside end len row.image_start row.image_len }
{
    let offset = row.image_start;
    offset < end || len < offset || len - offset < row.image_len
}

// 4 TABLE, of a record whose ID lies in a buffer of `room` bytes. The sum is never made, so it cannot wrap.
fn bad_part(row: EntryRecord, room: usize) -> bool
    ensures { result ≡ bad_part room row }
{
    let start = row.id_start;
    let len = row.id_len;
    len == 0 || 256 < len || room < start || room - start < len
}

// 5 ID, or the first row whose image is outside, if any. The canonical IDs of the rows before the first that 5 refuses go to `ids`. Each row is read once.
fn read_ids(
    reading: Reading,
    s: &[u8],
    rows: &[EntryRecord],
    end: usize,
    len: usize,
    ids: &mut [CanonicalId],
) -> Result<Option<usize>, Refusal>
    requires { (length rows.now ≤ length ids.old) × ((k : ℕ) → k < length rows.now → (record_at rows.now k).id_start + (record_at rows.now k).id_len ≤ length s.now) }
    ensures stop { stop_of result ≡ stop_at 5 (length rows.now) (λ k. bad_id (rules_of reading) (rows_of s.now rows.now k)) }
    ensures outside { IfOk result (λ out. out ≡ first_found (length rows.now) (λ k. outside end len (record_at rows.now k).image_start (record_at rows.now k).image_len)) }
    ensures ids_after { ids.new ≡ filled ids.old (first (length rows.now) (λ k. bad_id (rules_of reading) (rows_of s.now rows.now k))) (form (rules_of reading) (rows_of s.now rows.now)) }
{
    let mut outside = None;
    for i in 0..rows.len() {
        let row = rows[i];
        let start = row.id_start;
        if !ids[i].read(reading, &s[start..start + row.id_len]) {
            return Err(Reason::Id.at(i));
        }
        outside = outside.or(outside_row(row, end, len).then_some(i));
    }
    Ok(outside)
}

// 5 to 8 and 21 of a bundle's rows, in a bundle whose table ends at `end`. Their canonical IDs go to `ids`.
fn check_rows(
    reading: Reading,
    s: &[u8],
    rows: &[EntryRecord],
    end: usize,
    ids: &mut [CanonicalId],
) -> Result<(), Refusal>
    requires room { (length rows.now ≤ length ids.old) × (length s.now ≤ limit) }
    requires inside { (k : ℕ) → k < length rows.now → (record_at rows.now k).id_start + (record_at rows.now k).id_len ≤ length s.now }
    ensures stop { stop_of result ≡ rows_stop (rules_of reading) (overlap_stop (length rows.now) (rows_of s.now rows.now)) end (length s.now) (length rows.now) (rows_of s.now rows.now) }
    ensures ids_after { ids.new ≡ filled ids.old (first (length rows.now) (λ k. bad_id (rules_of reading) (rows_of s.now rows.now k))) (form (rules_of reading) (rows_of s.now rows.now)) }
{
    if let Some(i) = read_ids(reading, s, rows, end, s.len(), ids)? {
        return Err(Reason::Range.at(i));
    }
    check_overlaps(rows)?;
    check_relations(&ids[..rows.len()])
}

// 1 to 8 and 21 of a bundle, or its entry count, with its rows and canonical IDs in scratch.
pub(crate) fn check_in(
    reading: Reading,
    s: &[u8],
    rows: &mut [EntryRecord],
    ids: &mut [CanonicalId],
) -> Result<usize, Refusal>
    requires { count s.now ≤ 64 → (count s.now ≤ length rows.old) × (count s.now ≤ length ids.old) }
    ensures stop { stop_of result ≡ bundle_stop (rules_of reading) s.now }
    ensures count { IfOk result (λ n. n ≡ count s.now) }
    ensures rows_after { IfOk result (λ n. rows.new ≡ filled rows.old (count s.now) (row_held s.now)) }
    ensures ids_after { ids.new ≡ filled ids.old (forms_of (rules_of reading) s.now) (form (rules_of reading) (row s.now)) }
{
    let table = read_table(s, rows)?;
    let n = table.count;
    check_rows(reading, s, &rows[..n], table.end, ids)?;
    Ok(n)
}

// 3 COUNT and 4 TABLE, of records whose IDs lie in a buffer of `room` bytes.
fn check_parts(records: &[EntryRecord], room: usize) -> Result<(), Refusal>
    ensures { stop_of result ≡ stop_if 3 (ltb 64 (length records.now)) ⨾ stop_at 4 (length records.now) (λ k. bad_part room (record_at records.now k)) }
{
    if 64 < records.len() {
        return Err(Reason::Count.at(0));
    }
    for i in 0..records.len() {
        if bad_part(records[i], room) {
            return Err(Reason::Table.at(i));
        }
    }
    Ok(())
}

// 3 to 8 of records, with IDs in `buffer` and images in a buffer of `len` bytes. Their canonical IDs go to `ids`.
pub(crate) fn check_records(
    reading: Reading,
    buffer: &[u8],
    records: &[EntryRecord],
    len: usize,
    ids: &mut [CanonicalId],
) -> Result<(), Refusal>
    requires { 64 ≤ length ids.old }
    ensures stop { stop_of result ≡ records_stop (rules_of reading) buffer.now len (length records.now) records.now }
    ensures ids_after { ids.new ≡ filled ids.old (forms_of_records (rules_of reading) buffer.now (length records.now) records.now) (form (rules_of reading) (rows_of buffer.now records.now)) }
{
    check_parts(records, buffer.len())?;
    if let Some(i) = read_ids(reading, buffer, records, 0, len, ids)? {
        return Err(Reason::Range.at(i));
    }
    check_relations(&ids[..records.len()])
}
