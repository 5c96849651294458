// An assembly shows each part as the assembly it belongs to, and closes the parts that are not their own assembly.

ghost use Rattle.layers.specs.Assemblies.{AssemblyTold, TwiceAsOnce, assembly_fault, assembly_means, assembly_of, own_table, right_entry, settled, wrong_part, wrong_place};
ghost use Rattle.books.specs.Meanings.{is_part};
ghost use Rattle.refusals.specs.Faults.{passed};
ghost use Rattle.std.specs.Option.{IfSome};
ghost use Rattle.std.specs.Prelude.{◌≡◌, ◌<◌, false, length, is_some};
ghost use Rattle.layers.specs.Soundness.{assembly_sound};

use crate::faults::AssemblyFault;
use books::book::Book;
use books::faults::BookFault;
use books::shown::Shown;
use books::table::{check_amend, check_enter, check_withdraw};
use readings::kinds::Reading;
use std::array::from_fn;

#[cfg(test)]
mod tests;

// The book below, and for each part, from 1, its assembly.
#[derive(Drop)]
pub struct Assembly<B> {
    below: B,
    table: [u8; 250],
    ghost whole: { length table ≡ 250 },
    ghost right: { is_some (wrong_part table) ≡ false },
}

// Is every entry right? The fault names the lowest part whose entry is wrong.
#[tactic(auto, using(crate::specs::Entries::assembly_told))]
pub fn check(table: &[u8; 250]) -> Result<(), AssemblyFault>
    ensures answer { result ≡ passed (assembly_fault table.now) }
    ensures told { AssemblyTold table.now (passed (assembly_fault table.now)) }
{
    match wrong_place(table) {
        Some(place) => Err(AssemblyFault::Wrong(place as u8 + 1)),
        None => Ok(()),
    }
}

// The place of the first wrong entry, from 0. On its own, since this chain closes without a proof file only as a function's whole body.
fn wrong_place(table: &[u8; 250]) -> Option<usize>
    ensures place { result ≡ wrong_place table.now }
    ensures within { IfSome result (λ place. place < 250) }
{
    table.iter().position(|entry| !right_entry(table, *entry))
}

fn right_entry(table: &[u8; 250], entry: u8) -> bool
    ensures { result ≡ right_entry table.now entry }
{
    is_part(entry) && assembly_of(table, entry) == entry
}

// The assembly of a part.
fn assembly_of(table: &[u8; 250], part: u8) -> u8
    ensures { result ≡ assembly_of table.now part }
{
    if is_part(part) {
        table[usize::from(part - 1)]
    } else {
        part
    }
}

fn is_part(number: u8) -> bool
    ensures { result ≡ is_part number }
{
    (1..=250).contains(&number)
}

// The table in which each part is its own assembly.
fn own_table() -> [u8; 250]
    ensures { result ≡ own_table }
{
    from_fn(|place| place as u8 + 1)
}

impl<B: Shown> Assembly<B> {
    // An assembly by this table; from what the check refuses, an assembly without effect.
    #[tactic(auto, using(crate::specs::Entries::own_right, crate::proofs::Table::passes, crate::proofs::Table::refuses))]
    pub fn new(below: B, table: [u8; 250]) -> Assembly<B>
        ensures below { result.below ≡ below }
        ensures table { result.table ≡ settled table }
    {
        if check(&table).is_err() {
            return Assembly {
                below,
                table: own_table(),
            };
        }
        Assembly { below, table }
    }

    // The same table laid over once more: it means the same as once.
    #[tactic(auto, using(crate::proofs::Twice::same_assembly))]
    pub fn again(self) -> Assembly<Assembly<B>>
        ensures over { (result.below ≡ self) × (result.table ≡ self.table) }
        ensures same { TwiceAsOnce result.table (B.Shown.means result.below.below) }
    {
        let table = self.table;
        Assembly { below: self, table }
    }
}

// What it passes on, and its changes, stand here as in the bar, which says why.
impl<B: Shown> Shown for Assembly<B> {
    type Reading = B::Reading;

    ghost means = { λ b. assembly_means b.table (B.Shown.means b.below) };

    ghost sound = { λ b. assembly_sound _ b.table b.whole b.right _ (B.Shown.sound b.below) };

    fn width(&self) -> u32 {
        self.below.width()
    }

    fn capacity(&self) -> u32 {
        self.below.capacity()
    }

    #[tactic(auto, using(crate::proofs::Asked::held_told))]
    fn held(&self) -> u32 {
        self.below.held()
    }

    fn closed_test(&self, test: u32) -> bool {
        self.below.closed_test(test)
    }

    fn closed_part(&self, part: u8) -> bool {
        assembly_of(&self.table, part) != part || self.below.closed_part(part)
    }

    #[tactic(auto, using(crate::proofs::Asked::next_told))]
    fn next_tag(&self, above: u16) -> Option<u16> {
        self.below.next_tag(above)
    }

    #[tactic(auto, using(crate::proofs::Asked::assembly_part_told))]
    fn part(&self, tag: u16) -> Option<u8> {
        self.below
            .part(tag)
            .map(|part| assembly_of(&self.table, part))
    }

    #[tactic(auto, using(crate::proofs::Asked::assembly_reading))]
    fn reading(&self, tag: u16, test: u32) -> Option<B::Reading> {
        self.below.reading(tag, test)
    }
}

impl<B: Book> Book for Assembly<B> {
    ghost rewrites = { λ b c d. B.Book.rewrites b.below c d.below × (d.table ≡ b.table) };

    fn enter(&mut self, tag: u16, part: u8, readings: &[B::Reading]) -> Result<(), BookFault> {
        check_enter(self, tag, part, readings)?;
        self.below.enter(tag, part, readings)
    }

    fn withdraw(&mut self, tag: u16) -> Result<(), BookFault> {
        check_withdraw(self, tag)?;
        self.below.withdraw(tag)
    }

    fn amend(&mut self, tag: u16, test: u32, reading: B::Reading) -> Result<(), BookFault> {
        check_amend(self, tag, test, reading)?;
        self.below.amend(tag, test, reading)
    }
}
