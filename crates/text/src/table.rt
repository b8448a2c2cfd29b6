// The rules for the leaves, or for the nodes, of a section, and which of them gives each case.
ghost use Rattle.std.specs.Prelude.{◌≡◌, ◌<◌, vec_len, IfOk, IfSome, OnSome, Contains};
ghost use Rattle.text.specs.Crossing.{all_cases};

use std::alloc::{AllocError, Global};

#[derive(Drop)]
struct Rule<T> {
    // The offset of its first token.
    start: usize,
    result: T,
}

#[derive(Drop)]
pub struct Table<T> {
    rules: Vec<Rule<T>>,
    // By case, the index of its rule: one rule may give many cases.
    given: Vec<Option<usize>>,
}

// A case that an earlier rule has, and where that rule starts.
#[derive(Clone, Copy)]
pub struct Clash {
    pub case: usize,
    pub start: usize,
}

impl<T: Drop> Table<T> {
    pub fn new(heap: Global, cases: usize) -> Result<Table<T>, AllocError>
        ensures { IfOk result (λ table. vec_len table.given ≡ cases) }
    {
        let given = vec![in heap; None; cases]?;
        Ok(Table {
            rules: Vec::new(heap),
            given,
        })
    }

    pub fn len(&self) -> usize
        ensures { result ≡ vec_len self.now.given }
    {
        self.given.len()
    }

    fn rule(&self, case: usize) -> Option<&Rule<T>>
        ensures { OnSome result (case < vec_len self.now.given) }
    {
        let index = self.given.get(case).copied().flatten()?;
        self.rules.get(index)
    }

    // What the rule of a case gives, if the case has one.
    pub fn result(&self, case: usize) -> Option<&T>
        ensures { OnSome result (case < vec_len self.now.given) }
    {
        self.rule(case).map(|rule| &rule.result)
    }

    // The first of the cases that has a rule already.
    pub fn clash(&self, cases: &[usize]) -> Option<Clash>
        ensures { IfSome result (λ clash. Contains cases.now clash.case) }
    {
        cases.iter().find_map(|case| {
            self.rule(*case).map(|rule| Clash {
                case: *case,
                start: rule.start,
            })
        })
    }

    pub fn add(&mut self, cases: &[usize], start: usize, res: T) -> Result<(), AllocError>
        ensures { vec_len self.new.given ≡ vec_len self.old.given }
    {
        let index = self.rules.len();
        self.rules.push(Rule { start, result: res })?;
        // cases name places in any order, so there is no slice to go over
        for case in cases {
            if let Some(rule) = self.given.get_mut(*case) {
                *rule = Some(index);
            }
        }
        Ok(())
    }
}

// The cases from `first` on that are counted by a row and a column, of which there are `width`.
pub fn crossed(
    heap: Global,
    first: usize,
    rows: &[usize],
    width: usize,
    columns: &[u32],
) -> Result<Vec<usize>, AllocError>
    ensures { IfOk result (λ cases. cases.items ≡ all_cases first width rows.now columns.now) }
{
    rows.iter()
        .flat_map(|row| {
            columns.iter().map(move |column| {
                row.saturating_mul(width)
                    .saturating_add(first)
                    .saturating_add(*column as usize)
            })
        })
        .collect(heap)
}
