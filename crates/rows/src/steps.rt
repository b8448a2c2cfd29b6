// A pattern's row, read one step at a time.
ghost use Rattle.rows.specs.Stepwise.{StepAt};

// A part of a node.
#[derive(Clone, Copy, Debug, PartialEq, Eq)]
pub enum Part {
    Left,
    Right,
}

// What a pattern's row begins with: a leaf by its mark, a node by its mark, whose two patterns follow,
// or what a state makes of a part.
#[derive(Clone, Copy, Debug, PartialEq, Eq)]
pub enum Step {
    Leaf(u32),
    Node(u32),
    Made(u32, Part),
}

// The step that stands at a place, if one does.
pub fn step_at(words: &[u32], at: usize) -> Option<Step>
    ensures { StepAt words.now at result }
{
    match words.get(at..)? {
        [0, mark, ..] => Some(Step::Leaf(*mark)),
        [1, mark, ..] => Some(Step::Node(*mark)),
        [2, state, 0, ..] => Some(Step::Made(*state, Part::Left)),
        [2, state, 1, ..] => Some(Step::Made(*state, Part::Right)),
        _ => None,
    }
}
