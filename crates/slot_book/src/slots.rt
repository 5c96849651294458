// A slot: the tag and the part of a record; its readings stand in cells of their own.

ghost use Rattle.std.specs.Prelude.{◌≡◌};
ghost use Rattle.slot_book.specs.Found.{lowest_tag};

#[derive(Clone, Copy)]
pub struct Slot {
    // 0 where the slot is empty
    pub tag: u16,
    pub part: u8,
}

// a slot of no record
pub(crate) const NO_SLOT: Slot = Slot { tag: 0, part: 0 };

// The lowest tag above a number.
pub(crate) fn lowest_tag(slots: &[Slot], above: u16) -> Option<u16>
    ensures { result ≡ lowest_tag above slots.now }
{
    slots
        .iter()
        .map(|slot| slot.tag)
        .filter(|tag| *tag > above)
        .min()
}
