// A stack of frames in lent words, six words each.
ghost use Rattle.std.specs.Prelude.{◌≡◌, ◌+◌, ◌*◌, ◌<◌, ◌≤◌, length};
ghost use Rattle.transduce.specs.Stacked.{Popped, Pushed, Saved, frame_at};

use rows::numbered::{number_at, set_number};

// What is to be done with a subtree: so many patterns, one behind the other, are filled in with its parts.
#[derive(Clone, Copy, Debug, PartialEq, Eq)]
pub struct Frame {
    pub node: usize,
    pub at: usize,
    pub count: usize,
}

// The frame with number d.
pub fn load(frames: &[u32], d: usize) -> Frame
    requires { 6 * d + 5 < length frames.now }
    ensures { result ≡ frame_at frames.now d }
{
    let node = number_at(frames, 3 * d);
    let at = number_at(frames, 3 * d + 1);
    let count = number_at(frames, 3 * d + 2);
    Frame { node, at, count }
}

// Writes the frame with number d.
pub fn save(frames: &mut [u32], d: usize, f: Frame)
    requires { 6 * d + 5 < length frames.old }
    ensures { Saved frames.old frames.new d f }
{
    set_number(frames, 3 * d, f.node);
    set_number(frames, 3 * d + 1, f.at);
    set_number(frames, 3 * d + 2, f.count);
}

// So many frames, the last one on top. (Lent words and a depth, not a Vec: the calls have no heap.)
#[derive(Drop)]
pub struct Frames<'a> {
    pub words: &'a mut [u32],
    pub depth: usize,
}

impl<'a> Frames<'a> {
    // The frame with number d.
    pub fn load(&self, d: usize) -> Frame
        requires { 6 * d + 5 < length self.now.words.now }
        ensures { result ≡ frame_at self.now.words.now d }
    {
        load(self.words, d)
    }

    // Writes the frame with number d.
    pub fn save(&mut self, d: usize, f: Frame)
        requires { 6 * d + 5 < length self.old.words.now }
        ensures saved { Saved self.old.words.now self.new.words.now d f }
        ensures depth { self.new.depth ≡ self.old.depth }
        ensures long { length self.new.words.now ≡ length self.old.words.now }
        ensures same_words { self.new.words.ghost_name ≡ self.old.words.ghost_name }
    {
        save(self.words, d, f);
    }

    // Puts a frame on top.
    pub fn push(&mut self, f: Frame)
        requires { 6 * self.old.depth + 5 < length self.old.words.now }
        ensures { Pushed self.old self.new f }
    {
        self.save(self.depth, f);
        self.depth += 1;
    }

    // The frame on top, which is taken off, if there is one.
    pub fn pop(&mut self) -> Option<Frame>
        requires { 6 * self.old.depth ≤ length self.old.words.now }
        ensures { Popped self.old self.new result }
    {
        if self.depth == 0 {
            return None;
        }
        let depth = self.depth - 1;
        let top = self.load(depth);
        self.depth = depth;
        Some(top)
    }
}
