// Dividing the matrix on one test and again on the next: all plans between two sets, rising.

ghost use Rattle.std.specs.Prelude.{◌≡◌, ◌+◌, ◌^◌, ◌<◌, ◌≤◌, length};
ghost use Rattle.covers.specs.Divisions.{Apart, Judged};
ghost use Rattle.covers.specs.Plans.{plans_in};
ghost use Rattle.std.proofs.lemmas.List.Edits.{sets};

use crate::scanning::scan;
use sets::put;

// What a node of the division is: its sets have all chosen tests and else only undecided ones.
#[derive(Clone, Copy)]
pub enum Node {
    // none of its sets is a plan
    Barren,
    // of its sets the chosen tests alone are a plan
    Leaf,
    // it is divided on its highest undecided test
    Inner,
}

// Lists the plans of a node from place `count` on, and answers the new count. The count goes on where there is no place left, so it
// is no length of the list, and no slice or struct says it plainer.
pub fn divide(rows: &[u32], chosen: u32, undecided: u32, list: &mut [u32], count: u32) -> u32
    requires node { Apart chosen undecided }
    requires small { chosen + undecided < 2 ^ 24 }
    requires few { count ≤ chosen }
    ensures answer { result ≡ count + length (plans_in rows.now chosen (undecided + 1)) }
    ensures after { list.new ≡ sets list.old count (plans_in rows.now chosen (undecided + 1)) }
{
    match judge(rows, chosen, undecided) {
        Node::Barren => count,
        Node::Leaf => {
            put(list, count as usize, chosen);
            count + 1
        }
        Node::Inner => {
            let below = undecided >> 1;
            let test = below + 1;
            // first without the test, its column zeroed; then with it, which drops the rows that it covers
            let without = divide(rows, chosen, below, list, count);
            divide(rows, chosen | test, below, list, without)
        }
    }
}

// Prunes where a row is beyond reach, and where a chosen test has no row of its own, which no superset gives back;
// stops at a cover, since with own rows for all its tests no superset is a plan.
fn judge(rows: &[u32], chosen: u32, undecided: u32) -> Node
    requires { Apart chosen undecided }
    ensures { Judged rows.now chosen undecided result }
{
    let seen = scan(rows, chosen, chosen | undecided);
    if !seen.coverable || seen.owned != chosen {
        return Node::Barren;
    }
    if seen.covered {
        return Node::Leaf;
    }
    Node::Inner
}
