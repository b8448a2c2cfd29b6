// What was tried, counted.
use crate::judging::MANY_CALLS;
use crate::tried::Tried;
use std::fmt;
use turned::{Done, Unturned};

// The words of a tree of nine leaves and nodes.
const NINE: usize = 18;

#[derive(Clone, Copy, Default)]
pub struct Counts {
    pub jobs: u64,
    pub fits: u64,
    // jobs that break by a tree of at most nine leaves and nodes
    pub by_small: u64,
    // by a larger one, which was still among the trees that were tried
    pub by_tried: u64,
    // by one that is larger than all that were tried
    pub by_larger: u64,
    // classes of all jobs together, those of them that have a tree that was tried, and the most of one job
    pub classes: u64,
    pub seen: u64,
    pub most_classes: u64,
    // the leaves and nodes of the largest tree that breaks a job
    pub largest: u64,
    // calls of `judge` that said many
    pub many: u64,
    // trees whose kinds were worked out
    pub trees: u64,
    // what `turn` said of trees
    pub results: u64,
    pub not_of: u64,
    pub full: u64,
    // results that did not go into one word less
    pub short: u64,
}

impl Counts {
    // One more job, on which all trees of at most so many words were tried, and the tree that breaks it, if one does.
    pub fn judged(&mut self, tried: Tried, verdict: Option<&[u32]>, longest: usize) {
        self.jobs = self.jobs.saturating_add(1);
        self.classes = self.classes.saturating_add(u64::from(tried.classes));
        self.seen = self.seen.saturating_add(u64::from(tried.seen));
        self.most_classes = self.most_classes.max(u64::from(tried.classes));
        self.many = self.many.saturating_add(MANY_CALLS);
        match verdict {
            None => self.fits = self.fits.saturating_add(1),
            Some(tree) => {
                self.largest = self.largest.max(tree.len() as u64 / 2);
                let by = if tree.len() <= NINE {
                    &mut self.by_small
                } else if tree.len() <= longest {
                    &mut self.by_tried
                } else {
                    &mut self.by_larger
                };
                *by = by.saturating_add(1);
            }
        }
    }

    pub fn turned(&mut self, done: Done) {
        match done {
            Ok(_) => self.results = self.results.saturating_add(1),
            Err(Unturned::NotOf) => self.not_of = self.not_of.saturating_add(1),
            Err(_) => self.full = self.full.saturating_add(1),
        }
    }
}

impl fmt::Display for Counts {
    fn fmt<W: fmt::Write>(&self, f: &mut fmt::Formatter<W>) -> fmt::Result {
        let lines = [
            ("jobs", self.jobs),
            ("  fits", self.fits),
            ("  breaks by a tree of at most nine", self.by_small),
            ("  breaks by a larger one that was tried", self.by_tried),
            ("  breaks by one larger than all tried", self.by_larger),
            ("  leaves and nodes of the largest of these", self.largest),
            ("  answers many, with fewer classes allowed", self.many),
            ("classes", self.classes),
            ("  with a tree that was tried", self.seen),
            ("  most of one job", self.most_classes),
            ("trees tried", self.trees),
            ("  turned: result", self.results),
            ("  turned: not of", self.not_of),
            ("  turned: full", self.full),
            ("  turned into one word less: full", self.short),
        ];
        for (label, number) in lines {
            writeln!(f, "{label:<42}{number:>9}")?;
        }
        Ok(())
    }
}
