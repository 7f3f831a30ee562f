// Words that hold a state, lent to read or to change: what is made of them leaves words that hold one.
ghost use Rattle.std.specs.Prelude.{◌≡◌, true};
ghost use Rattle.state.specs.Represents.{represents};

#[derive(Clone, Copy)]
pub struct Stored<'a> {
    pub words: &'a [u32],
    ghost holds: { represents words.now ≡ true },
}

#[derive(Drop)]
pub struct StoredMut<'a> {
    pub words: &'a mut [u32],
    ghost holds: { represents words.now ≡ true },
}
