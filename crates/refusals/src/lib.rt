// Refusals: what every refused call tells.

#![tactic(auto)]

ghost use Rattle.refusals.specs.declared.Place.TheVariants.{At};
ghost use Rattle.std.specs.Prelude.{◌≡◌};

// Which piece of the library refuses.
#[derive(Clone, Copy, PartialEq, Eq, Debug)]
pub enum Origin {
    Page,
    Book,
    Bar,
    Assembly,
    Bench,
    Cover,
    Span,
    Text,
}

// Where: a number, 0 where the table names no place; or a byte of a record of a page, both from 0.
#[derive(Clone, Copy, PartialEq, Eq, Debug)]
pub enum Place {
    At(u64),
    InPage { record: u32, byte: u32 },
}

// A line of the refusal table; every fault enum becomes its line by `From`.
#[derive(Clone, Copy, PartialEq, Eq, Debug)]
pub struct Refusal {
    pub number: u32,
    pub origin: Origin,
    pub place: Place,
}

impl Refusal {
    // A line whose place is a number.
    pub fn at(number: u32, origin: Origin, place: u64) -> Refusal
        ensures { result ≡ record { number = number; origin = origin; place = At place } }
    {
        Refusal {
            number,
            origin,
            place: Place::At(place),
        }
    }
}

#[cfg(test)]
mod tests;
