// A job in lent words: where its parts stand.
ghost use Rattle.std.specs.Prelude.{◌≡◌, ◌+◌, ◌*◌, ◌<◌, ◌≤◌, length};
ghost use Rattle.rows.specs.Jobs.{JobKnown, JobRead, PlacesFound, TurnRead, item_mark, item_place};
ghost use Rattle.rows.specs.Numbered.{number};

use crate::numbered::number_at;
use crate::patterns::{Bounds, read_patterns};
use crate::tables::{KnownType, TypePlaces, read_type};
use crate::trees::Item;

// How many marks a job, and how many states a turn may have. (Texts have a limit of their own: they tell the place.)
pub const MOST_MARKS: u32 = 64;

pub const MOST_STATES: u32 = 64;

// A turn: the number of its states, and where its row ends.
#[derive(Clone, Copy, Debug, PartialEq, Eq)]
pub struct TurnPlaces {
    pub states: u32,
    pub end: usize,
}

// Where the parts of a job stand. Where its patterns begin stands in an index: those for leaves, by state and mark,
// then those for nodes, two words each. (The index is lent: the calls have no heap for a list of places.)
#[derive(Clone, Copy, Debug, PartialEq, Eq)]
pub struct JobPlaces {
    pub marks: u32,
    pub from: TypePlaces,
    pub turn: TurnPlaces,
    pub to: TypePlaces,
}

// Why no job was read: the words are none, or the index has fewer words than they.
#[derive(Clone, Copy, Debug, PartialEq, Eq)]
pub enum JobRefusal {
    NoJob,
    NoRoom,
}

// The turn whose row begins at a place, if one does.
fn read_turn(words: &[u32], at: usize, marks: u32, index: &mut [u32]) -> Option<TurnPlaces>
    requires few { marks ≤ 64 }
    requires room { length words.now ≤ length index.old }
    ensures { TurnRead words.now index.new marks at result }
{
    let states = *words.get(at)?;
    if states == 0 || states > MOST_STATES {
        return None;
    }
    let count = states as usize * marks as usize;
    if words.len() < 4 * count {
        return None;
    }
    let for_leaves = Bounds {
        marks,
        states,
        parts: false,
    };
    let for_nodes = Bounds {
        parts: true,
        ..for_leaves
    };
    let mid = read_patterns(words, at + 1, for_leaves, index, 0, count)?;
    let end = read_patterns(words, mid, for_nodes, index, count, count)?;
    Some(TurnPlaces { states, end })
}

// The places of a job's parts, if the words are a job.
fn find_places(words: &[u32], index: &mut [u32]) -> Option<JobPlaces>
    requires { length words.now ≤ length index.old }
    ensures { PlacesFound words.now index.new result }
{
    let marks = *words.first()?;
    if marks == 0 || marks > MOST_MARKS {
        return None;
    }
    let from = read_type(words, 1, marks)?;
    let turn = read_turn(words, from.end, marks, index)?;
    let to = read_type(words, turn.end, marks)?;
    if to.end != words.len() {
        return None;
    }
    Some(JobPlaces {
        marks,
        from,
        turn,
        to,
    })
}

// Reads a job: known exactly if the words are one. An index as long as the job has room for every job.
pub fn read_job(words: &[u32], index: &mut [u32]) -> Result<JobPlaces, JobRefusal>
    ensures { JobRead words.now index.new result }
{
    if index.len() < words.len() {
        return Err(JobRefusal::NoRoom);
    }
    find_places(words, index).ok_or(JobRefusal::NoJob)
}

impl JobPlaces {
    // Where the pattern for a state and a leaf or a node begins. (Apart from that of a known job: what it promises is of places alone.)
    pub fn pattern(self, index: &[u32], item: Item, state: u32) -> usize
        requires room { 4 * (self.turn.states * self.marks) ≤ length index.now }
        requires state { state < self.turn.states }
        requires mark { item_mark item < self.marks }
        ensures { result ≡ number index.now (item_place self item state) }
    {
        let marks = self.marks as usize;
        match item {
            Item::Leaf(mark) => number_at(index, state as usize * marks + mark as usize),
            Item::Node(mark) => {
                let first = self.turn.states as usize * marks;
                number_at(index, first + (state as usize * marks + mark as usize))
            }
        }
    }
}

// A job that was read: its words, the index of its patterns, and the places of its parts.
#[derive(Clone, Copy)]
pub struct KnownJob<'a> {
    pub words: &'a [u32],
    pub index: &'a [u32],
    pub places: JobPlaces,
    pub ghost known: { ∥ JobKnown words.now index.now places ∥₁ },
}

impl<'a> KnownJob<'a> {
    ghost use Rattle.rows.specs.Known.{type_of, from_of, to_of};

    // The job's first type. (The second's has the same form: one function for both would take a switch.)
    pub fn from_type(self) -> KnownType<'a>
        ensures says { type_of result ≡ from_of self.entry }
        ensures marks { result.marks ≡ self.entry.places.marks }
        ensures kinds { result.places.kinds ≡ self.entry.places.from.kinds }
    {
        KnownType {
            words: self.words,
            marks: self.places.marks,
            places: self.places.from,
        }
    }

    // The job's second type.
    pub fn to_type(self) -> KnownType<'a>
        ensures says { type_of result ≡ to_of self.entry }
        ensures marks { result.marks ≡ self.entry.places.marks }
        ensures kinds { result.places.kinds ≡ self.entry.places.to.kinds }
    {
        KnownType {
            words: self.words,
            marks: self.places.marks,
            places: self.places.to,
        }
    }

    // Where the pattern for a state and a leaf or a node begins.
    pub fn pattern(self, item: Item, state: u32) -> usize
        requires state { state < self.places.turn.states }
        requires mark { item_mark item < self.places.marks }
        ensures { result ≡ number self.entry.index.now (item_place self.entry.places item state) }
    {
        self.places.pattern(self.index, item, state)
    }
}
