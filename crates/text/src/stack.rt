//! A stack of words in lent memory.
ghost use Rattle.std.specs.Prelude.{◌≡◌, [], ◌∷◌, ◌≤◌, ◌<◌, MatchOption, length};

// The first `depth` words are on the stack, the last of them on top. It is compared and printed no more than `Machine`.
#[derive(Drop)]
pub(crate) struct Stack<'a> {
    pub words: &'a mut [u32],
    pub depth: usize,
    ghost within: { depth ≤ length words.now },
}

impl<'a> Stack<'a> {
    ghost use Rattle.text.specs.Stack.{on_stack, room_on};

    // Puts a word on top.
    pub(crate) fn push(&mut self, word: u32)
        requires { length (on_stack self.old) < room_on self.old }
        ensures same_words { self.new.words.ghost_name ≡ self.old.words.ghost_name }
        ensures same_room { room_on self.new ≡ room_on self.old }
        ensures pushed { on_stack self.new ≡ word ∷ on_stack self.old }
    {
        self.words[self.depth] = word;
        self.depth += 1;
    }

    // Takes the word on top.
    pub(crate) fn pop(&mut self) -> Option<u32>
        ensures same_words { self.new.words.ghost_name ≡ self.old.words.ghost_name }
        ensures same_room { room_on self.new ≡ room_on self.old }
        ensures popped { MatchOption result (on_stack self.old ≡ []) (λ word. on_stack self.old ≡ word ∷ on_stack self.new) }
    {
        if self.depth == 0 {
            return None;
        }
        self.depth -= 1;
        Some(self.words[self.depth])
    }
}
