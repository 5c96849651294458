// What every kind of reading must show: one blank, and which readings are compatible.

ghost use Rattle.readings.specs.Kinds.{Kind, Lawful};
ghost use Rattle.std.specs.Prelude.{◌≡◌};

pub trait Reading: Copy {
    ghost kind: { Kind Self };

    // The reading that nobody took.
    fn blank() -> Self
        ensures { result ≡ kind.blank };

    fn is_blank(&self) -> bool
        ensures { result ≡ kind.is_blank self.now };

    // May the two be the same? Where not, they tell apart.
    fn agrees(&self, other: &Self) -> bool
        ensures { result ≡ kind.agrees self.now other.now };

    ghost lawful: { Lawful Self kind };
}
