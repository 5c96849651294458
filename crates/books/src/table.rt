// The refusal table, looked up for any book through its questions: every implementation of the changes asks here first.

ghost use Rattle.std.specs.Prelude.{◌≡◌, ◌≤◌, length, OnOk};
ghost use Rattle.books.specs.Changes.{amend, closed_reading, enter, enter_arguments, enter_closed, enter_held, not_held, refused, withdraw};
ghost use Rattle.refusals.specs.Faults.{passed};

use crate::faults::BookFault;
use crate::shown::Shown;
use readings::kinds::Reading;

const LAST_PART: u8 = 250;

// Refuses to enter a record with the first fault that the table has, by rising number.
pub fn check_enter<B: Shown>(
    book: &B,
    tag: u16,
    part: u8,
    readings: &[B::Reading],
) -> Result<(), BookFault>
    ensures { result ≡ passed (refused B.Reading.Reading.kind (B.Shown.means book.now) (enter tag part readings.now)) }
{
    check_arguments(book, tag, part, readings)?;
    check_closed(book, part, readings)?;
    check_held(book, tag)
}

fn check_arguments<B: Shown>(
    book: &B,
    tag: u16,
    part: u8,
    readings: &[B::Reading],
) -> Result<(), BookFault>
    ensures answer { result ≡ passed (enter_arguments (B.Shown.means book.now) tag part readings.now) }
    ensures few { OnOk result (length readings.now ≤ 24) }
{
    if tag == 0 {
        return Err(BookFault::NoTag);
    }
    if !(1..=LAST_PART).contains(&part) {
        return Err(BookFault::Part(part));
    }
    if readings.len() != book.width() as usize {
        return Err(BookFault::Readings);
    }
    Ok(())
}

fn check_closed<B: Shown>(book: &B, part: u8, readings: &[B::Reading]) -> Result<(), BookFault>
    requires { length readings.now ≤ 24 }
    ensures { result ≡ passed (enter_closed B.Reading.Reading.kind (B.Shown.means book.now) part readings.now) }
{
    if book.closed_part(part) {
        return Err(BookFault::ClosedPart(part));
    }
    check_readings(book, readings)
}

// Refuses the lowest closed test at which the readings are not blank.
fn check_readings<B: Shown>(book: &B, readings: &[B::Reading]) -> Result<(), BookFault>
    requires { length readings.now ≤ 24 }
    ensures { result ≡ passed (closed_reading B.Reading.Reading.kind (B.Shown.means book.now).closed_test 1 readings.now) }
{
    for (place, reading) in readings.iter().enumerate() {
        let test = place as u32 + 1;
        if book.closed_test(test) && !reading.is_blank() {
            return Err(BookFault::ClosedTest(test));
        }
    }
    Ok(())
}

fn check_held<B: Shown>(book: &B, tag: u16) -> Result<(), BookFault>
    ensures { result ≡ passed (enter_held (B.Shown.means book.now) tag) }
{
    if book.part(tag).is_some() {
        return Err(BookFault::Held(tag));
    }
    if book.held() == book.capacity() {
        return Err(BookFault::Full);
    }
    Ok(())
}

// Refuses to withdraw a tag with the first fault that the table has.
pub fn check_withdraw<B: Shown>(book: &B, tag: u16) -> Result<(), BookFault>
    ensures { result ≡ passed (refused B.Reading.Reading.kind (B.Shown.means book.now) (withdraw tag)) }
{
    match tag {
        0 => Err(BookFault::NoTag),
        named => check_absence(book, named),
    }
}

// Refuses to amend a reading with the first fault that the table has.
pub fn check_amend<B: Shown>(
    book: &B,
    tag: u16,
    test: u32,
    reading: B::Reading,
) -> Result<(), BookFault>
    ensures { result ≡ passed (refused B.Reading.Reading.kind (B.Shown.means book.now) (amend tag test reading)) }
{
    if tag == 0 {
        return Err(BookFault::NoTag);
    }
    if !(1..=book.width()).contains(&test) {
        return Err(BookFault::Test(test));
    }
    if book.closed_test(test) {
        return Err(BookFault::ClosedTest(test));
    }
    check_absence(book, tag)
}

// Refuses a tag that is not held.
fn check_absence<B: Shown>(book: &B, tag: u16) -> Result<(), BookFault>
    ensures { result ≡ passed (not_held (B.Shown.means book.now) tag) }
{
    book.part(tag).ok_or(BookFault::NotHeld(tag))?;
    Ok(())
}
