// A record's 32 bytes: 0 and 1 the tag, 2 the part, 3 zero, 4 to 27 the readings of tests 1 to 24, 28 to 31 zero.

ghost use Rattle.std.specs.Prelude.{◌≡◌, ◌<◌, IfSome, length};
ghost use Rattle.page_book.specs.Layout.{code_at, part_at, records_in, records_of, tag_at};
ghost use Rattle.page_book.specs.Refused.{right_byte, wrong_byte};

// bytes of a record
pub const RECORD: usize = 32;
// bytes of the largest page
pub const LARGEST: usize = 2048;
// tests of the narrowest page
pub const NARROWEST: u32 = 1;
// and of the widest
pub const WIDEST: u32 = 24;
// the tag of a free record
pub const FREE: u16 = 0;
// the code of no reading
pub const BLANK: u8 = 255;

// the byte of the part
const PART: usize = 2;
// a byte that stays zero
const ZERO: usize = 3;
// the first reading
pub const READINGS: usize = 4;
// the first byte after the readings, zero with all that follow
pub const TAIL: usize = 28;
// the lowest part
const LOWEST_PART: u8 = 1;
// and the highest
const HIGHEST_PART: u8 = 250;

// One record. By itself it is a page whose record 0 it is.
pub type Record = [u8; RECORD];

// The page, record by record.
pub fn records(page: &[u8]) -> &[Record]
    ensures each { result.now ≡ records_of page.now }
    ensures len { length result.now ≡ records_in page.now }
{
    page.as_chunks().0
}

// A record's tag, 0 where it is free.
pub fn tag(bytes: &Record) -> u16
    ensures { result ≡ tag_at bytes.now 0 }
{
    u16::from_le_bytes([bytes[0], bytes[1]])
}

// The part that a record is of.
pub fn part(bytes: &Record) -> u8
    ensures { result ≡ part_at bytes.now 0 }
{
    bytes[PART]
}

// A record's reading at the test of place `place`, from 0.
pub fn code(bytes: &Record, place: usize) -> u8
    requires { place < 24 }
    ensures { result ≡ code_at bytes.now 0 place }
{
    bytes[READINGS + place]
}

// Whether `value` may stand in byte `at` of a record with this tag.
fn right_byte(tag: u16, width: u32, at: usize, value: u8) -> bool
    ensures { result ≡ right_byte tag width at value }
{
    if tag == FREE || at == ZERO || at >= TAIL {
        value == 0
    } else if at == PART {
        (LOWEST_PART..=HIGHEST_PART).contains(&value)
    } else if at >= READINGS + width as usize {
        value == BLANK
    } else {
        true
    }
}

// The lowest byte of a record that is against the layout.
pub fn wrong_byte(bytes: &Record, width: u32) -> Option<usize>
    ensures first { result ≡ wrong_byte bytes.now width 0 }
    ensures inside { IfSome result (λ at. at < 32) }
{
    let tag = tag(bytes);
    bytes
        .iter()
        .enumerate()
        .position(|(at, byte)| !right_byte(tag, width, at, *byte))
}
