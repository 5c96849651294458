// Sets of tests: a set is a 32-bit number in which test j, from 1, counts 2^(j−1).

#![tactic(auto)]

ghost use Rattle.sets.specs.Sets.{LowestAbove, alone, first_above, has_test, meets as meet};
ghost use Rattle.std.specs.Prelude.{◌≡◌, length, replicate, slice_set};

// the set without tests
pub const EMPTY: u32 = 0;

// Do two sets have a test in common?
pub fn meets(a: u32, b: u32) -> bool
    ensures { result ≡ meet a b }
{
    a & b != EMPTY
}

// The set itself where it is a single test, else the empty set.
pub fn single(x: u32) -> u32
    ensures { result ≡ alone x }
{
    if x.count_ones() == 1 { x } else { EMPTY }
}

// Is the test in the set? No set has test 0, or one above 32.
pub fn has(set: u32, test: u32) -> bool
    ensures { result ≡ has_test set test }
{
    (1..=32).contains(&test) && (set >> (test - 1)) % 2 == 1
}

// The lowest test of the set above a width, where it has one.
#[tactic(auto, using(crate::proofs::Lowest::above_is, crate::proofs::Lowest::first_told))]
pub fn lowest_above(set: u32, width: u32) -> Option<u32>
    ensures answer { result ≡ first_above set width }
    ensures told { LowestAbove set width (first_above set width) }
{
    let above = set.checked_shr(width).unwrap_or(EMPTY);
    if above == EMPTY {
        return None;
    }
    Some(width + 1 + above.trailing_zeros())
}

// Makes every set of a list empty.
pub fn clear(list: &mut [u32])
    ensures { list.new ≡ replicate (length list.old) 0 }
{
    list.fill(EMPTY);
}

// Writes a set at a place of a list, where the list has that place.
pub fn put(list: &mut [u32], place: usize, set: u32)
    ensures { list.new ≡ slice_set list.old place set }
{
    if place < list.len() {
        list[place] = set;
    }
}

#[cfg(test)]
mod tests;
