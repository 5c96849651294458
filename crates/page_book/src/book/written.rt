// The 32 bytes of one record, written.

ghost use Rattle.std.specs.Prelude.{◌≡◌, ◌+◌, ◌*◌, ◌≤◌, length, true};
ghost use Rattle.page_book.specs.Places.{are_bytes};
ghost use Rattle.page_book.specs.Rewrites.{entered_byte, entered_bytes, with_record};

use crate::layout::{BLANK, READINGS, RECORD, Record, TAIL};
use std::array::from_fn;

// Writes a record. Page and place, and no part of the page lent for it: what the whole page then is, is what its callers tell.
#[tactic(auto, using(crate::proofs::Writing::copied))]
pub(crate) fn write_record(page: &mut [u8], k: usize, bytes: &Record)
    requires { 32 * k + 32 ≤ length page.old }
    ensures { page.new ≡ with_record page.old k bytes.now }
{
    page[RECORD * k..RECORD * k + RECORD].copy_from_slice(bytes);
}

// A record in use: tag, part, readings, and blanks up to the last test.
pub(crate) fn entered(tag: u16, part: u8, readings: &[u8]) -> Record
    ensures bytes { result ≡ entered_bytes tag part readings.now }
    ensures small { are_bytes result ≡ true }
{
    from_fn(|at| entered_byte(tag, part, readings, at))
}

// Byte `at` of such a record.
fn entered_byte(tag: u16, part: u8, readings: &[u8], at: usize) -> u8
    ensures { result ≡ entered_byte tag part readings.now at }
{
    match at {
        0 | 1 => tag.to_le_bytes()[at],
        2 => part,
        READINGS..TAIL => readings.get(at - READINGS).copied().unwrap_or(BLANK),
        _ => 0,
    }
}
