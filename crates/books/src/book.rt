// The changes: what every book lets be done to it, refused exactly as the table says.

ghost use Rattle.books.specs.Changes.{Change, after, amend, enter, refused, withdraw};
ghost use Rattle.books.specs.Promises.{Changed};
ghost use Rattle.std.specs.Prelude.{◌≡◌};

use crate::faults::BookFault;
use crate::shown::Shown;

pub trait Book: Shown {
    // what an accepted change makes of this book's own memory
    ghost rewrites: { Self → Change Self.Reading → Self → Type 0 };

    // Adds the record as given.
    fn enter(&mut self, tag: u16, part: u8, readings: &[Self::Reading]) -> Result<(), BookFault>
        ensures { Changed Self.Reading.Reading.kind Self.Shown.means rewrites (enter tag part readings.now) self.old self.new result };

    // Removes the record of a tag.
    fn withdraw(&mut self, tag: u16) -> Result<(), BookFault>
        ensures { Changed Self.Reading.Reading.kind Self.Shown.means rewrites (withdraw tag) self.old self.new result };

    // Sets one reading of the record of a tag.
    fn amend(&mut self, tag: u16, test: u32, reading: Self::Reading) -> Result<(), BookFault>
        ensures { Changed Self.Reading.Reading.kind Self.Shown.means rewrites (amend tag test reading) self.old self.new result };
}
