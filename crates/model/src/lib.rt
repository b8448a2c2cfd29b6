#![tactic(auto)]

ghost use Rattle.model.specs.Laws.{RowLaws, TreeOrder};
ghost use Rattle.model.specs.Worked.{WorkedCase};

// The order of trees is a strict total order, and a tree's parts are less than the tree.
pub fn order_stands()
    ensures { TreeOrder }
{}

// Rows are the writing of at most one job, and of at most one tree.
pub fn rows_stand()
    ensures { RowLaws }
{}

// The worked case comes out as written.
pub fn worked_case_stands()
    ensures { WorkedCase }
{}
