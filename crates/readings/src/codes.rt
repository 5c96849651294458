// Codes: a byte, 255 being the blank.

ghost use Rattle.readings.specs.Codes.{codes};
ghost use Rattle.std.proofs.Common.{rules};

use crate::kinds::Reading;

const BLANK: u8 = 255;

impl Reading for u8 {
    ghost kind = { codes };

    ghost lawful = { Prim.search rules };

    fn blank() -> u8 {
        BLANK
    }

    fn is_blank(&self) -> bool {
        *self == BLANK
    }

    fn agrees(&self, other: &u8) -> bool {
        *self == *other || *self == BLANK || *other == BLANK
    }
}
