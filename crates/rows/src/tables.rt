// The tables of a type.
ghost use Rattle.std.specs.Prelude.{◌≡◌, ◌-◌, ◌*◌, ◌<◌, ◌≤◌, length, nat_eq, nat_lt};
ghost use Rattle.std.specs.List.{list_all, list_any};
ghost use Rattle.model.specs.Types.{contains, kind_of_leaf, kind_of_node, node_place};
ghost use Rattle.rows.specs.Standing.{Ends, slice};
ghost use Rattle.rows.specs.Tables.{Table, TypeKnown, TypeRead};

// How many kinds a type may have. (Texts have a limit of their own: they tell the place.)
pub const MOST_KINDS: u32 = 64;

// Where the tables of a type stand. (Places and not slices: what is promised of them is of the whole row.)
#[derive(Clone, Copy, Debug, PartialEq, Eq)]
pub struct TypePlaces {
    pub kinds: u32,
    pub leaves: usize,
    pub nodes: usize,
    // the wanted kinds, up to the end of the row
    pub wanted: usize,
    pub end: usize,
}

// Whether all these words are below a bound. (A loop, since `all` took longer over long tables.)
fn are_below(words: &[u32], bound: u32) -> bool
    ensures { result ≡ list_all (λ x. nat_lt x bound) words.now }
{
    for word in words {
        if *word >= bound {
            return false;
        }
    }
    true
}

// Where a table of so many words ends, all of them below a bound, if one stands at this place.
fn table_end(words: &[u32], at: usize, count: usize, bound: u32) -> Option<usize>
    requires { at ≤ length words.now }
    ensures { Ends (λ xs. xs) (Table count bound) words.now at result }
{
    let table = words[at..].get(..count)?;
    are_below(table, bound).then_some(at + count)
}

// The type whose row begins at a place, if one does.
pub fn read_type(words: &[u32], at: usize, marks: u32) -> Option<TypePlaces>
    requires { marks ≤ 64 }
    ensures { TypeRead words.now at marks result }
{
    let kinds = *words.get(at)?;
    if kinds == 0 || kinds > MOST_KINDS {
        return None;
    }
    let m = marks as usize;
    let k = kinds as usize;
    let leaves = at + 1;
    let nodes = table_end(words, leaves, m, kinds)?;
    let count = table_end(words, nodes, m * (k * k), kinds)?;
    let wanted = count + 1;
    let end = table_end(words, wanted, *words.get(count)? as usize, kinds)?;
    Some(TypePlaces {
        kinds,
        leaves,
        nodes,
        wanted,
        end,
    })
}

// Whether a kind is among these words.
fn is_among(kind: u32, words: &[u32]) -> bool
    ensures { result ≡ list_any (λ x. nat_eq x kind) words.now }
{
    words.iter().any(|word| *word == kind)
}

impl TypePlaces {
    // Whether a kind is wanted. (Apart from that of a known type: what it promises is of places alone.)
    pub fn wants(self, words: &[u32], kind: u32) -> bool
        requires before { self.wanted ≤ self.end }
        requires within { self.end ≤ length words.now }
        ensures { result ≡ contains (slice self.wanted (self.end - self.wanted) words.now) kind }
    {
        is_among(kind, &words[self.wanted..self.end])
    }
}

// A type that was read: the words that its tables stand in, for so many marks.
#[derive(Clone, Copy)]
pub struct KnownType<'a> {
    pub words: &'a [u32],
    pub marks: u32,
    pub places: TypePlaces,
    pub ghost known: { ∥ TypeKnown words.now marks places ∥₁ },
}

impl<'a> KnownType<'a> {
    ghost use Rattle.rows.specs.Known.{type_of};

    // The place of a node's kind in the table for nodes. All look-ups go through here.
    fn place(self, mark: u32, left: u32, right: u32) -> usize
        requires mark { mark < self.marks }
        requires left { left < self.places.kinds }
        requires right { right < self.places.kinds }
        ensures value { result ≡ node_place self.entry.places.kinds mark left right }
        ensures below { result < self.entry.marks * (self.entry.places.kinds * self.entry.places.kinds) }
    {
        let k = self.places.kinds as usize;
        (mark as usize * k + left as usize) * k + right as usize
    }

    // The kind of a leaf.
    pub fn leaf_kind(self, mark: u32) -> u32
        requires { mark < self.marks }
        ensures value { result ≡ kind_of_leaf (type_of self.entry) mark }
        ensures below { result < self.entry.places.kinds }
    {
        self.words[self.places.leaves + mark as usize]
    }

    // The kind of a node, by the kinds of its parts.
    pub fn node_kind(self, mark: u32, left: u32, right: u32) -> u32
        requires mark { mark < self.marks }
        requires left { left < self.places.kinds }
        requires right { right < self.places.kinds }
        ensures value { result ≡ kind_of_node (type_of self.entry) mark left right }
        ensures below { result < self.entry.places.kinds }
    {
        self.words[self.places.nodes + self.place(mark, left, right)]
    }

    // Whether a kind is wanted.
    pub fn wants(self, kind: u32) -> bool
        ensures { result ≡ contains (type_of self.entry).wanted kind }
    {
        self.places.wants(self.words, kind)
    }
}
