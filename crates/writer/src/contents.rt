// The contents of a frame, in the forms that a caller has them: measured and written alike.
ghost use Rattle.std.specs.Prelude.{◌≡◌, List, ℕ, ◌+◌, ◌≤◌, length};
ghost use Rattle.lists.specs.Splice.{splice};
ghost use Rattle.frame.specs.Stuffing.{stuff};
ghost use Rattle.writer.specs.Private.{Counts};

// What one pass over contents finds: how many bytes are sent as two, and the exclusive or of all.
#[derive(Clone, Copy)]
pub(crate) struct Counted {
    pub escapes: u8,
    pub sum: u8,
}

// Contents that can be measured and written. Each form gets a frame's writer of its own, so that none is looked for when
// it runs.
pub(crate) trait Contents: Copy {
    ghost bytes: { Self → List ℕ };

    fn len(self) -> usize
        ensures { result ≡ length (bytes self) };

    // Contents that are counted are few, since a number of eight bits is counted faster than a wider one.
    fn count(self) -> Counted
        requires { length (bytes self) ≤ 255 }
        ensures { Counts (bytes self) result };

    // Writes the bytes, stuffed, from an index on, and answers the next index. What was counted tells whether any is sent
    // as two.
    fn put(self, counted: Counted, out: &mut [u8], from: usize) -> usize
        requires counts { Counts (bytes self) counted }
        requires in_bounds { from + length (stuff (bytes self)) ≤ length out.old }
        ensures value { result ≡ from + length (stuff (bytes self)) }
        ensures out_after { out.new ≡ splice out.old from (stuff (bytes self)) };
}
