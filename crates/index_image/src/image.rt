// The two entries: an index as an image of bytes, written and read. Neither is handed a record.
ghost use Rattle.std.specs.Prelude.{◌++◌, ◌≡◌, ◌+◌, ◌≤◌, ltb, length};
ghost use Rattle.rank_sel.specs.Outcome.{outcome, test_by};
ghost use Rattle.index_image.specs.Bytes.{bytes_of, put_at};
ghost use Rattle.index_image.specs.Image.{Read, Wrote, of_writing, offset_of, write_of};

use crate::header::{FIELDS, HEADER_LEN, cells_left, header_of, is_image, summary_in, test_alone};
use crate::words::{read_words, write_words};
use inventory::{Summary, numbers_of, test_cells};
use rank_sel::Refusal;

// Refusal 16. The image's byte length may pass 2^64: the counts are taken off the place's, and never added up.
fn is_place_too_short(lent: u64, inventory: u64, spill: u64) -> bool
    ensures { result ≡ ltb lent (offset_of (inventory + spill)) }
{
    cells_left(lent, inventory).is_none_or(|cells| cells < spill)
}

// 1, 14, 9, 6, 7, 16, where so many bytes are lent.
fn test_writing(
    summary: Summary,
    inventory: &[u64],
    spill: &[u64],
    lent: u64,
) -> Result<(), Refusal>
    ensures { outcome result ≡ test_by (of_writing summary inventory.now spill.now lent) }
{
    test_alone(summary)?;
    test_cells(summary, inventory, spill)?;
    if is_place_too_short(lent, summary.inventory_len, summary.spill_len) {
        return Err(Refusal::PlaceTooShort);
    }
    Ok(())
}

// The header and the cells, at the start of the bytes.
fn put_image(bytes: &mut [u8], header: [u64; FIELDS], inventory: &[u64], spill: &[u64])
    requires { offset_of (length inventory.now + length spill.now) ≤ length bytes.old }
    ensures { bytes.new ≡ put_at 0 (bytes_of (header ++ (inventory.now ++ spill.now))) bytes.old }
{
    let at = HEADER_LEN as usize;
    write_words(bytes, 0, &header);
    write_words(bytes, at, inventory);
    write_words(bytes, at + 8 * inventory.len(), spill);
}

// The image of an index at the start of the lent bytes, and its byte length.
pub fn write_image(
    summary: Summary,
    inventory: &[u64],
    spill: &[u64],
    bytes: &mut [u8],
) -> Result<u64, Refusal>
    ensures { Wrote (write_of summary inventory.now spill.now (length bytes.old)) bytes.old bytes.new result }
{
    test_writing(summary, inventory, spill, bytes.len() as u64)?;
    let n = summary.inventory_len as usize;
    let m = summary.spill_len as usize;
    let header = header_of(numbers_of(summary));
    put_image(bytes, header, &inventory[..n], &spill[..m]);
    Ok(HEADER_LEN + 8 * (summary.inventory_len + summary.spill_len))
}

// The summary of an image, and its cells into the lent ones. Any cells are taken: no jump is covered before the check says yes.
pub fn read_image(
    bytes: &[u8],
    inventory: &mut [u64],
    spill: &mut [u64],
) -> Result<Summary, Refusal>
    ensures { Read bytes.now inventory.old inventory.new spill.old spill.new result }
{
    if !is_image(bytes) {
        return Err(Refusal::ImageUnlawful);
    }
    let summary = summary_in(bytes);
    test_cells(summary, inventory, spill)?;
    let n = summary.inventory_len as usize;
    let m = summary.spill_len as usize;
    let at = HEADER_LEN as usize;
    read_words(bytes, at, &mut inventory[..n]);
    read_words(bytes, at + 8 * n, &mut spill[..m]);
    Ok(summary)
}
