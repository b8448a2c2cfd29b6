// Every state that a tree automaton reaches, each with the least tree that reaches it, in the order of trees.
#![tactic(auto)]

ghost use Rattle.std.specs.Prelude.{◌≡◌, ℕ, ◌<◌, length};
ghost use Rattle.automata.specs.Automata.{TreeAutomaton, Reached, Alphabet};
ghost use Rattle.reach.specs.Searching.{Scratch};
ghost use Rattle.reach.specs.Promise.{Finds};

mod offers;

use offers::Search;
use table::Table;

// A deterministic automaton that goes up trees from the leaves; its states, the signatures, are rows of words.
pub trait Automaton {
    // what signatures it gives to trees, and how many words each has
    ghost meaning: { Self → TreeAutomaton };

    ghost wide: { Self → ℕ };

    // how many letters stand in for all marks, and the mark of each; mostly the letters are the marks
    ghost alphabet: { Self → ℕ };

    ghost markof: { Self → ℕ → ℕ } = { λ _ letter. letter };

    // How many letters there are.
    fn letters(&self) -> u32
        ensures { result ≡ alphabet self.now };

    // The mark of a letter. It has no body here: that would be proved once for every impl, also one with a `markof` of its own.
    fn mark(&self, letter: u32) -> u32
        requires { letter < alphabet self.now }
        ensures { result ≡ markof self.now letter };

    // Writes the signature of a leaf.
    fn leaf(&self, mark: u32, out: &mut [u32])
        requires mark { mark < (meaning self.now).marks }
        requires out { length out.old ≡ wide self.now }
        ensures { out.new ≡ (meaning self.now).on_leaf mark };

    // Writes the signature of a node, from those of its parts.
    fn node(&self, mark: u32, left: &[u32], right: &[u32], out: &mut [u32])
        requires mark { mark < (meaning self.now).marks }
        requires left { Reached (meaning self.now) left.now }
        requires right { Reached (meaning self.now) right.now }
        requires out { length out.old ≡ wide self.now }
        ensures { out.new ≡ (meaning self.now).on_node mark left.now right.now };
}

// There are more classes than the table has rows.
#[derive(Clone, Copy, Debug, PartialEq, Eq)]
pub struct TooMany;

// Finds every class of trees that the automaton tells apart, each with its least tree, in the order of trees, and settles all
// rows: the least open row is settled, and then every node that it makes possible is offered. `key` and `size` are room for one
// signature and one size.
pub fn search<A: Automaton>(
    automaton: &A,
    table: &mut Table,
    key: &mut [u32],
    size: &mut [u32],
) -> Result<(), TooMany>
    requires alphabet { Alphabet (A.meaning automaton.now) (A.alphabet automaton.now) (A.markof automaton.now) }
    requires scratch { Scratch (A.wide automaton.now) key.old size.old table.old }
    ensures finds { Finds (A.meaning automaton.now) table.new result }
    ensures shape { table.new.shape ≡ table.old.shape }
{
    Search {
        automaton,
        table,
        key,
        size,
    }
    .run()
}
