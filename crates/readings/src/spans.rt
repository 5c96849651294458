// A span of numbers, both ends included; low is never above high.

ghost use Rattle.std.specs.Prelude.{◌≤◌};

// spans made, asked for their ends, and compared
pub mod measured;

#[derive(Clone, Copy)]
pub struct Span {
    low: u16,
    high: u16,
    ghost ordered: { low ≤ high },
    ghost bounded: { high ≤ 65535 },
}
