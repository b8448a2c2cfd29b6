// Finite deterministic bottom-up automata on trees: the theory that a search for all reachable states rests on.
#![tactic(auto)]

ghost use Rattle.automata.specs.Laws.{AutomatonLaws};

// There are finitely many classes, one tree of each tells all, none is missed, least trees have least parts, and how classes are counted.
pub fn laws_stand()
    ensures { AutomatonLaws }
{}
